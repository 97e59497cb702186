// The point set of a call: which roles are armable, and by which pair of leg and detection point; and what goes by it (document 01, One call; T-04).
ghost use Rattle.std.specs.Prelude.{◌≡◌, ◌&&◌, cond, [], ◌∷◌};
ghost use Rattle.call.specs.Armings.{unarmed, disarmed};
ghost use Rattle.call.specs.Points.{at, each, points_of, set_of, is_point, is_pair, is_leg, point_in, is_in, role_in, leaves, on_leg, disarms};

use crate::armings::*;
use crate::roles::{ROLES, Role};
use crate::{armings, roles};
use forms::item::*;

// A detection point: its leg, and its number, which is not 0. (No Option of a point where a role has none: Route failure in a terminating call alone, which has the number 0, so that all rows are of one type and no test of a point is a case more.)
#[derive(Clone, Copy, PartialEq, Eq)]
pub struct Point {
    pub leg: Leg,
    pub number: u8,
}

// A role's point in each kind of call.
#[derive(Clone, Copy)]
pub(crate) struct RolePoints {
    pub originating: Point,
    pub terminating: Point,
}

fn at(leg: Leg, number: u8) -> Point
    ensures { result ≡ at leg number }
{
    Point { leg, number }
}

fn each(leg: Leg, number: u8, in_terminating: Leg, terminating: u8) -> RolePoints
    ensures { result ≡ each (at leg number) (at in_terminating terminating) }
{
    RolePoints {
        originating: at(leg, number),
        terminating: at(in_terminating, terminating),
    }
}

// The table of points, a row a role: its leg and number in an originating call, and in a terminating one.
fn points_of(p: Role) -> RolePoints
    ensures { result ≡ points_of p }
{
    match p {
        Role::MidCall => each(Leg::One, 8, Leg::Two, 16),
        Role::Disconnect1 => each(Leg::One, 9, Leg::One, 17),
        Role::Abandon => each(Leg::One, 10, Leg::One, 18),
        Role::Moved => each(Leg::One, 50, Leg::Two, 51),
        Role::RouteFailure => each(Leg::Two, 4, Leg::Two, 0),
        Role::Busy => each(Leg::Two, 5, Leg::Two, 13),
        Role::NoAnswer => each(Leg::Two, 6, Leg::Two, 14),
        Role::Answer => each(Leg::Two, 7, Leg::Two, 15),
        Role::Disconnect2 => each(Leg::Two, 9, Leg::Two, 17),
        Role::Seized => each(Leg::Two, 19, Leg::Two, 27),
    }
}

pub fn trigger(bcsm: Bcsm) -> Point
    ensures { result ≡ (set_of bcsm).trigger }
{
    match bcsm {
        Bcsm::Originating => at(Leg::One, 2),
        Bcsm::Terminating => at(Leg::One, 12),
    }
}

pub fn point_in(bcsm: Bcsm, p: Role) -> Point
    ensures { result ≡ point_in (set_of bcsm) p }
{
    let points = points_of(p);
    match bcsm {
        Bcsm::Originating => points.originating,
        Bcsm::Terminating => points.terminating,
    }
}

pub(crate) fn is_point(q: Point) -> bool
    ensures { result ≡ is_point q }
{
    0 < q.number
}

pub(crate) fn is_in(bcsm: Bcsm, p: Role) -> bool
    ensures { result ≡ is_in (set_of bcsm) p }
{
    is_point(point_in(bcsm, p))
}

fn is_pair(q: Point, leg: u8, number: u8) -> bool
    ensures { result ≡ is_pair q leg number }
{
    is_point(q) & ((leg == q.leg.number()) & (number == q.number))
}

// The role that has the numbers of a leg and a point, if there is one.
#[tactic(auto, using(crate::proofs::PointLaws::first_here, crate::proofs::PointLaws::first_after, crate::proofs::PointLaws::first_none))]
pub(crate) fn role_in(bcsm: Bcsm, leg: u8, number: u8) -> Option<Role>
    ensures { result ≡ role_in (set_of bcsm) leg number }
{
    for p in ROLES {
        if is_pair(point_in(bcsm, p), leg, number) {
            return Some(p);
        }
    }
    None
}

fn is_on_leg(q: Point, leg: Leg) -> bool
    ensures { result ≡ (is_point q && is_leg q.leg leg) }
{
    is_point(q) & (q.leg == leg)
}

// The leg becomes absent when the role is met.
pub(crate) fn takes_leg(bcsm: Bcsm, p: Role, leg: Leg) -> bool
    ensures { result ≡ leaves (set_of bcsm) p leg }
{
    roles::part_of(p).leaves & is_on_leg(point_in(bcsm, p), leg)
}

// The points of a leg are disarmed.
#[tactic(auto, using(crate::proofs::PointLaws::roles_end))]
fn without_leg(bcsm: Bcsm, leg: Leg, a: [Arming; 10]) -> [Arming; 10]
    ensures { result ≡ disarmed (on_leg (set_of bcsm) leg) a }
{
    let mut b = a;
    for p in ROLES {
        if is_on_leg(point_in(bcsm, p), leg) {
            b[roles::place_of(p)] = UNARMED;
        }
    }
    b
}

// Answer's row, whatever the kind of call.
const ANSWERED: [Role; 6] = [
    Role::RouteFailure,
    Role::Busy,
    Role::NoAnswer,
    Role::Answer,
    Role::Abandon,
    Role::Seized,
];

// The armings that are left when a role is met.
pub(crate) fn disarm(bcsm: Bcsm, p: Role, a: [Arming; 10]) -> [Arming; 10]
    ensures { result ≡ disarmed (disarms (set_of bcsm) p) a }
{
    match p {
        Role::RouteFailure => without_leg(bcsm, Leg::Two, a),
        Role::Busy => without_leg(bcsm, Leg::Two, a),
        Role::NoAnswer => without_leg(bcsm, Leg::Two, a),
        Role::Disconnect2 => without_leg(bcsm, Leg::Two, a),
        Role::Answer => armings::without(&ANSWERED, a),
        Role::MidCall => armings::without(&[Role::MidCall], a),
        Role::Seized => armings::without(&[Role::Seized], a),
        Role::Moved => armings::without(&[Role::Moved], a),
        Role::Abandon => without_leg(bcsm, Leg::One, a),
        Role::Disconnect1 => without_leg(bcsm, Leg::One, a),
    }
}
