// Which items the held link marks join, and which a question concerns. Items of one class, those that are joined, have the same number.
#![tactic(auto)]

ghost use Rattle.std.specs.Prelude.{◌≡◌, ◌<◌, T, length, map};
ghost use Rattle.terms.specs.Limits.{ITEMS};
ghost use Rattle.terms.specs.Held.{is_markable, is_question};
ghost use Rattle.terms.specs.Places.{MarksNamed};
ghost use Rattle.joined.specs.Joining.{renamed_to, WithStatement, Classes, Either, Concerned};

use terms::{Atom, Mark, Question};

const ITEMS: usize = terms::ITEMS as usize;

// The number of an item's class when the class `from` has gone into the class `into`.
fn renamed(class: u8, from: u8, into: u8) -> u8
    ensures { result ≡ renamed_to from into class }
{
    if class == from {
        return into;
    }
    class
}

// The class `from` goes into the class `into`.
fn merge(classes: &mut [u8; ITEMS], from: u8, into: u8)
    ensures { classes.new ≡ map (renamed_to from into) classes.old }
{
    *classes = classes.map(|class| renamed(class, from, into));
}

// A link joins its two ends, so that their classes become one.
fn join(classes: &mut [u8; ITEMS], atom: Atom)
    requires { (length classes.old ≡ ITEMS) × T (is_markable atom) }
    ensures { WithStatement classes.old atom classes.new }
{
    match atom {
        Atom::Has(_, _) => {}
        Atom::Linked(from, _, to) => {
            let one = classes[usize::from(from)];
            let other = classes[usize::from(to)];
            if one != other {
                merge(classes, other, one);
            }
        }
    }
}

// The classes by the marks.
fn classes_of(marks: &[Mark]) -> [u8; ITEMS]
    requires { MarksNamed marks.now }
    ensures { Classes marks.now result }
{
    let mut classes = [0, 1, 2, 3, 4, 5, 6, 7, 8, 9, 10, 11, 12, 13, 14, 15];
    for mark in marks {
        join(&mut classes, mark.atom);
    }
    classes
}

// The items of the class of `one` and of that of `other`.
fn either(classes: [u8; ITEMS], one: usize, other: usize) -> [bool; ITEMS]
    requires { (length classes ≡ ITEMS) × (one < ITEMS) × (other < ITEMS) }
    ensures { Either classes one other result }
{
    let first = classes[one];
    let second = classes[other];
    classes.map(|class| (first == class) | (second == class))
}

// Which items the question concerns, by the marks: those joined to its item, of a link question to one of its ends.
pub fn concerned(marks: &[Mark], question: Question) -> [bool; ITEMS]
    requires { MarksNamed marks.now × T (is_question question) }
    ensures { Concerned marks.now question result }
{
    let classes = classes_of(marks);
    match question {
        Question::Spans(item, _) => {
            let place = usize::from(item);
            either(classes, place, place)
        }
        Question::Holds(atom, _) => match atom {
            Atom::Has(item, _) => {
                let place = usize::from(item);
                either(classes, place, place)
            }
            Atom::Linked(from, _, to) => either(classes, usize::from(from), usize::from(to)),
        },
    }
}
