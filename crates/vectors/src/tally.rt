// How many cases of each kind agreed.
use crate::verdict::Verdict;
use std::alloc::{AllocError, Global};
use std::{fmt, io};

#[derive(Drop)]
struct Count {
    kind: String,
    agreed: u64,
    cases: u64,
}

#[derive(Drop)]
pub struct Tally {
    // Stays a list: the kinds are printed in the order in which they first came, which a map would lose.
    counts: Vec<Count>,
    malformed: u64,
}

impl Count {
    fn add(&mut self, agrees: bool) {
        self.cases = self.cases.saturating_add(1);
        self.agreed = self.agreed.saturating_add(u64::from(agrees));
    }
}

impl Tally {
    pub fn new(heap: Global) -> Tally {
        Tally {
            counts: Vec::new(heap),
            malformed: 0,
        }
    }

    fn count(&mut self, kind: String, agrees: bool) -> Result<(), AllocError> {
        match self.counts.iter_mut().find(|count| count.kind == kind) {
            Some(count) => count.add(agrees),
            None => self.counts.push(Count {
                kind,
                agreed: u64::from(agrees),
                cases: 1,
            })?,
        }
        Ok(())
    }

    // Counts the verdict on a case, and prints it if the case disagrees.
    pub fn take(&mut self, rt: &impl Print, number: u64, verdict: Verdict) -> io::Result<()> {
        let Verdict { kind, other } = verdict;
        if let Some(other) = &other {
            println!(rt; "line {number}: {kind} disagrees: {other}")?;
        }
        self.count(kind, other.is_none())?;
        Ok(())
    }

    // Counts a malformed line, and prints that it is.
    pub fn take_malformed(&mut self, rt: &impl Print, number: u64) -> io::Result<()> {
        self.malformed = self.malformed.saturating_add(1);
        println!(rt; "line {number}: malformed")
    }

    pub fn all_agreed(&self) -> bool {
        self.malformed == 0 && self.counts.iter().all(|count| count.agreed == count.cases)
    }
}

impl fmt::Display for Count {
    fn fmt<W: fmt::Write>(&self, f: &mut fmt::Formatter<W>) -> fmt::Result {
        let Count {
            kind,
            agreed,
            cases,
        } = self;
        write!(f, "{kind} {agreed} of {cases}")
    }
}

// A line for each kind, and one for the malformed lines, without a line feed at the end.
impl fmt::Display for Tally {
    fn fmt<W: fmt::Write>(&self, f: &mut fmt::Formatter<W>) -> fmt::Result {
        for count in self.counts.iter() {
            writeln!(f, "{count}")?;
        }
        let malformed = self.malformed;
        write!(f, "malformed {malformed}")
    }
}
