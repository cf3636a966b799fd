// 02's cable zero: depths, marks and the hole moved by the same amount, and whether they stay in their range.
#![tactic(auto)]

ghost use Rattle.std.specs.Prelude.{◌≡◌, map, T};
ghost use Rattle.terms.specs.Limits.{is_depth};
ghost use Rattle.terms.specs.Lists.{every};
ghost use Rattle.shift.specs.Shifted.{by, shift_mark, shift_hole, mark_stays, hole_stays};

use terms::{DEEPEST, Hole, Mark, SHALLOWEST};

// The exact sum: that of two numbers of 32 bits fits 64.
fn moved(depth: i32, shift: i32) -> i64
    ensures { result ≡ by shift depth }
{
    i64::from(depth) + i64::from(shift)
}

// The moved depth lies where marks lie.
fn depth_stays(depth: i32, shift: i32) -> bool
    ensures { result ≡ is_depth (by shift depth) }
{
    let to = moved(depth, shift);
    terms::at_or_above(SHALLOWEST, to) & terms::at_or_below(DEEPEST, to)
}

// So it is a number of 32 bits again.
fn depth_shifted(depth: i32, shift: i32) -> i32
    requires { T (is_depth (by shift depth)) }
    ensures { result ≡ by shift depth }
{
    moved(depth, shift) as i32
}

fn mark_stays(mark: Mark, shift: i32) -> bool
    ensures { result ≡ mark_stays shift mark }
{
    depth_stays(mark.top, shift) & depth_stays(mark.bottom, shift)
}

fn mark_shifted(mark: Mark, shift: i32) -> Mark
    requires { T (mark_stays shift mark) }
    ensures { result ≡ shift_mark shift mark }
{
    Mark {
        atom: mark.atom,
        top: depth_shifted(mark.top, shift),
        bottom: depth_shifted(mark.bottom, shift),
    }
}

pub fn hole_stays(hole: Hole, shift: i32) -> bool
    ensures { result ≡ hole_stays shift hole }
{
    match hole {
        Hole::Whole => true,
        Hole::Part(top, bottom) => depth_stays(top, shift) & depth_stays(bottom, shift),
    }
}

pub fn hole_shifted(hole: Hole, shift: i32) -> Hole
    requires { T (hole_stays shift hole) }
    ensures { result ≡ shift_hole shift hole }
{
    match hole {
        Hole::Whole => Hole::Whole,
        Hole::Part(top, bottom) => {
            Hole::Part(depth_shifted(top, shift), depth_shifted(bottom, shift))
        }
    }
}

// All of them stay.
pub fn marks_stay(marks: &[Mark], shift: i32) -> bool
    ensures { result ≡ every (mark_stays shift) marks.now }
{
    marks.iter().all(|mark| mark_stays(*mark, shift))
}

// The marks, moved, each where it was.
pub fn shift_marks(marks: &mut [Mark], shift: i32)
    requires { T (every (mark_stays shift) marks.old) }
    ensures { marks.new ≡ map (shift_mark shift) marks.old }
{
    for mark in marks {
        *mark = mark_shifted(*mark, shift);
    }
}
