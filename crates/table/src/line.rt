// The text of a listing line (document 01, The listing program).
ghost use Rattle.std.specs.Prelude.{◌≡◌, ◌++◌, ◌+◌, ◌≤◌, leb, length, unwrap_or};
ghost use Rattle.call.specs.Answers.{relationship_word, pair_of, suspended_at, event_of, tenths_in, told_of, values_by};
ghost use Rattle.table.specs.Line.{HasRoom, Puts, decimal, field, text, word_text, suspended_text, pair_text, event_text, reports_text, over_text, told_text, values_text, line_of, header as header_text, longest, printed};

use call::answers::*;
use call::points::Point;
use call::relationship::Relationship;
use forms::bytes;
use forms::refusal::Reason;
use forms::units::Tenths;
use itoa::{Buffer, Integer};

// No line has more bytes.
pub const LONGEST: usize = 128;

// The lent buffer, and the place in it where the text goes on.
// Not by Display: `line` promises its bytes whatever comes, and a clause on `fmt` says them only of an `Ok`. What room each part asks for is its own number, so it is a clause and no invariant.
#[derive(Drop)]
struct Text<'a> {
    out: &'a mut [u8],
    at: usize,
}

impl Text<'_> {
    fn put(&mut self, t: &[u8])
        requires { HasRoom (length t.now) self.old }
        ensures { Puts (length t.now) t.now self.old self.new }
    {
        bytes::copy_in(self.out, self.at, t);
        self.at += t.len();
    }

    fn put_number<I: Integer>(&mut self, n: I)
        requires { HasRoom I.MAX_STR_LEN self.old }
        ensures { Puts I.MAX_STR_LEN (I.text n) self.old self.new }
    {
        let mut digits = Buffer::new();
        self.put(digits.format(n).as_bytes());
    }

    // A field's name and its number.
    fn put_field(&mut self, name: &[u8], n: u64)
        requires { HasRoom (length name.now + 20) self.old }
        ensures { Puts (length name.now + 20) (name.now ++ decimal n) self.old self.new }
    {
        self.put(name);
        self.put_number(n);
    }

    fn put_relationship(&mut self, r: Relationship)
        requires { HasRoom 8 self.old }
        ensures { Puts 8 (word_text (relationship_word r)) self.old self.new }
    {
        self.put(word_of(r));
    }

    // The point of suspension, or that there is none.
    fn put_suspension(&mut self, point: Option<Point>)
        requires { HasRoom 4 self.old }
        ensures { Puts 4 (suspended_text (suspended_at point)) self.old self.new }
    {
        match point {
            None => self.put(b" -"),
            Some(q) => {
                self.put(b" ");
                self.put_number(q.number);
            }
        }
    }

    // The mark of a report, and the point with its leg.
    fn put_point(&mut self, mark: &[u8], q: Point)
        requires { HasRoom (length mark.now + 7) self.old }
        ensures { Puts (length mark.now + 7) (mark.now ++ pair_text (pair_of q)) self.old self.new }
    {
        self.put(mark);
        self.put_number(q.number);
        self.put(b"/");
        self.put_number(q.leg.number());
    }

    fn put_event(&mut self, report: Option<Report>)
        requires { HasRoom 9 self.old }
        ensures { Puts 9 (event_text (event_of report)) self.old self.new }
    {
        match report {
            None => (),
            Some(Report::Interrupting(q)) => self.put_point(b" r", q),
            Some(Report::Notification(q)) => self.put_point(b" n", q),
        }
    }

    // A time's field, where there is one: the charge of a leg, or the deadline.
    fn put_tenths(&mut self, name: &[u8], t: Option<Tenths>)
        requires { HasRoom (length name.now + 20) self.old }
        ensures { Puts (length name.now + 20) (field name.now (tenths_in t)) self.old self.new }
    {
        match t {
            None => (),
            Some(t) => self.put_field(name, t.0),
        }
    }

    fn put_reports(&mut self, reports: Reports)
        requires { HasRoom 57 self.old }
        ensures { Puts 57 (reports_text (event_of reports.event) (tenths_in reports.charge1) (tenths_in reports.charge2)) self.old self.new }
    {
        self.put_event(reports.event);
        self.put_tenths(b" c1=", reports.charge1);
        self.put_tenths(b" c2=", reports.charge2);
    }

    fn put_over(&mut self, over: bool)
        requires { HasRoom 5 self.old }
        ensures { Puts 5 (over_text over) self.old self.new }
    {
        if over {
            self.put(b" over");
        }
    }

    fn put_outcome(&mut self, o: Outcome)
        requires { HasRoom 99 self.old }
        ensures { Puts 99 (told_text (told_of o)) self.old self.new }
    {
        self.put(b" ok");
        self.put_relationship(o.relationship);
        self.put_suspension(o.suspension);
        self.put_reports(o.reports);
        self.put_tenths(b" d", o.deadline);
        self.put_over(o.over);
    }

    fn put_answer<R: Reason>(&mut self, answer: Answer<R>)
        requires { HasRoom 99 self.old }
        ensures { Puts 99 (values_text (values_by R.told_by answer)) self.old self.new }
    {
        match answer {
            Ok(o) => self.put_outcome(o),
            Err(refusal) => self.put_field(b" refused ", u64::from(refusal.told())),
        }
    }

    fn put_line<R: Reason>(&mut self, number: u64, answer: Answer<R>)
        requires { HasRoom longest self.old }
        ensures { Puts longest (line_of number (values_by R.told_by answer)) self.old self.new }
    {
        self.put_number(number);
        self.put_answer(answer);
        self.put(b"\n");
    }
}

// By a match: a derive would print the variants' names and not the paper's words.
fn word_of(r: Relationship) -> &'static [u8]
    ensures { (result.now ≡ word_text (relationship_word r)) × (length result.now ≤ 8) }
{
    match r {
        Relationship::None => b" none",
        Relationship::Monitor => b" monitor",
        Relationship::Control => b" control",
    }
}

// There is room for the longest line.
pub fn has_room(out: &[u8], at: usize) -> bool
    ensures { result ≡ leb (at + longest) (length out.now) }
{
    (at <= out.len()) && (LONGEST <= out.len() - at)
}

// Stores the line and answers the next place, behind it. Where there is no room for the longest line nothing is stored.
pub fn line<R: Reason>(out: &mut [u8], at: usize, number: u64, answer: Answer<R>) -> Option<usize>
    ensures out_after { (result, out.new) ≡ printed (line_of number (values_by R.told_by answer)) out.old at }
    ensures at_bound { unwrap_or result at ≤ at + longest }
{
    if !has_room(out, at) {
        return None;
    }
    let mut text = Text { out, at };
    text.put_line(number, answer);
    Some(text.at)
}

// Stores the line above all others.
pub fn header(out: &mut [u8], at: usize) -> Option<usize>
    ensures out_after { (result, out.new) ≡ printed header_text out.old at }
    ensures at_bound { unwrap_or result at ≤ at + longest }
{
    if !has_room(out, at) {
        return None;
    }
    let mut text = Text { out, at };
    text.put(b"item answer\n");
    Some(text.at)
}
