// The listing program (document 01): a profile and then items on standard input, and a line for each item's answer on standard output.
#![tactic(auto)]

mod input;
mod output;

use forms::profile;
use input::Input;
use output::Output;
use table::{feed, slot};

// Lists the answers. Before more input is waited for, and where a further line would have no room, the output is written; where that fails, no item is left.
// The table is lent item by item. A fresh one is sound and stays so, so no item is checked for refusal 3.
fn list_items(input: &mut Input<'_>, output: &mut Output<'_>) {
    let mut slots = slot::fresh();
    for number in 1..=u64::MAX {
        match input.find_item(output) {
            Ok(Some(item)) => {
                let answer = feed::feed_sound(&mut slots, input.part(item), input.profile());
                output.put_line(number, answer);
            }
            Ok(None) => return,
            Err(refusal) => {
                output.put_line(number, Err(refusal));
                return;
            }
        }
    }
}

// Reads the profile, under the header. Refusal 2, with number 0, where it is cut short or malformed; no line where it could not be read.
fn list(input: &mut Input<'_>, output: &mut Output<'_>) {
    output.put_header();
    if input.find_profile().is_err() {
        return;
    }
    match profile::read_profile(input.profile()) {
        Ok(_) => list_items(input, output),
        Err(refusal) => output.put_line(0, Err(refusal)),
    }
}

fn main(rt: HostRuntime) {
    let mut input = Input::new(&rt);
    let mut output = Output::new(&rt);
    list(&mut input, &mut output);
    output.flush();
}
