//! What the checks of a table of cases gave: the first that failed, with its case.

use std::fmt;
use std::test::Fail;

/// What a check compares.
#[derive(Clone, Copy)]
enum Shown {
    Number(u64),
    Word(&'static str),
}

impl fmt::Display for Shown {
    fn fmt<W: fmt::Write>(&self, f: &mut fmt::Formatter<W>) -> fmt::Result {
        match self {
            Shown::Number(number) => write!(f, "{number}"),
            Shown::Word(word) => write!(f, "{word}"),
        }
    }
}

/// A place in a table: a case and a part of it, both counted from 1.
#[derive(Clone, Copy)]
struct Place {
    row: u64,
    case: &'static str,
    step: u64,
    part: &'static str,
}

/// A check that failed.
#[derive(Clone, Copy)]
struct Wrong {
    place: Place,
    field: &'static str,
    found: Shown,
    wanted: Shown,
}

/// The checks of a table of cases. A test makes all of them and ends with `result`, which names the
/// first that failed.
#[derive(Clone, Copy)]
pub struct Checks {
    place: Place,
    wrong: Option<Wrong>,
}

impl Checks {
    pub fn new() -> Checks {
        Checks {
            place: Place {
                row: 0,
                case: "",
                step: 0,
                part: "",
            },
            wrong: None,
        }
    }

    /// Begins the next case.
    pub fn case(&mut self, name: &'static str) {
        self.place.row = self.place.row.saturating_add(1);
        self.place.case = name;
        self.place.step = 0;
        self.place.part = "";
    }

    /// Begins the next part of the case.
    pub fn part(&mut self, name: &'static str) {
        self.place.step = self.place.step.saturating_add(1);
        self.place.part = name;
    }

    fn fail(&mut self, field: &'static str, found: Shown, wanted: Shown) {
        if self.wrong.is_none() {
            self.wrong = Some(Wrong {
                place: self.place,
                field,
                found,
                wanted,
            });
        }
    }

    /// Compares two numbers.
    pub fn equal(&mut self, field: &'static str, found: u64, wanted: u64) {
        if found != wanted {
            self.fail(field, Shown::Number(found), Shown::Number(wanted));
        }
    }

    /// Compares two words.
    pub fn word(&mut self, field: &'static str, found: &'static str, wanted: &'static str) {
        if found != wanted {
            self.fail(field, Shown::Word(found), Shown::Word(wanted));
        }
    }

    /// Checks a condition.
    pub fn holds(&mut self, field: &'static str, is_so: bool) {
        if !is_so {
            self.fail(field, Shown::Word("false"), Shown::Word("true"));
        }
    }

    /// Compares samples.
    pub fn samples(&mut self, field: &'static str, found: &[u16], wanted: &[u16]) {
        let (count, all) = (found.len() as u64, wanted.len() as u64);
        self.equal("the number of samples", count, all);
        for (one, other) in found.iter().zip(wanted) {
            self.equal(field, u64::from(*one), u64::from(*other));
        }
    }

    /// The first check that failed, as the test's result.
    pub fn result(self) -> Result<(), Fail> {
        match self.wrong {
            None => Ok(()),
            Some(
                Wrong {
                    place,
                    field,
                    found,
                    wanted,
                },
            ) => {
                let Place {
                    row,
                    case,
                    step,
                    part,
                } = place;
                Err(Fail::new(format_args!(
                    "case {row} ({case}), part {step} ({part}): {field}: {found}, not {wanted}"
                )))
            }
        }
    }
}
