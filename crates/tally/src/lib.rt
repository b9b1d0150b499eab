// The tally of a run. What is wrong is told as it is found. Safe and ending on any arguments; its contracts say no more.

#![tactic(auto)]

use folder::Refusal;
use std::io;

// The last refusal of the table.
const LAST: usize = 35;

// How often each refusal was seen, by its number, and at 0 acceptance; the cases of the group that is being run, and of
// all groups the wrong ones, the steps compared with the solver's, the bounds tried and those whose numbers are past 64
// bits; and where the run is, by a line of the script or a varied folder.
#[derive(Drop)]
pub struct Run<'a, R> {
    rt: &'a R,
    seen: [usize; LAST + 1],
    cases: usize,
    wrong: usize,
    steps: usize,
    bounds: usize,
    too_big: usize,
    place: usize,
}

// An answer with one place: the second is 0.
pub fn answer(number: usize, place: usize) -> Result<(), Refusal> {
    answer_at(number, place, 0)
}

// Number 0 stands for acceptance, which has no place: with one it is an answer that no call gives.
pub fn answer_at(number: usize, place: usize, second: usize) -> Result<(), Refusal> {
    if number == 0 && place == 0 && second == 0 {
        return Ok(());
    }
    Err(Refusal {
        number,
        place,
        second,
    })
}

pub fn number_of(o: Result<(), Refusal>) -> usize {
    o.err().map_or(0, |f| f.number)
}

impl<'a, R: Print> Run<'a, R> {
    pub fn new(rt: &'a R) -> Run<'a, R> {
        Run {
            rt,
            seen: [0; LAST + 1],
            cases: 0,
            wrong: 0,
            steps: 0,
            bounds: 0,
            too_big: 0,
            place: 0,
        }
    }

    // The run goes on at this line or folder.
    pub fn go_to(&mut self, place: usize) {
        self.place = place;
    }

    pub fn wrong(&self) -> usize {
        self.wrong
    }

    pub fn count_step(&mut self) {
        self.steps = self.steps.saturating_add(1);
    }

    // An answer was seen.
    pub fn count(&mut self, o: Result<(), Refusal>) {
        if let Some(seen) = self.seen.get_mut(number_of(o)) {
            *seen = seen.saturating_add(1);
        }
    }

    fn count_case(&mut self, ok: bool) {
        self.cases = self.cases.saturating_add(1);
        if !ok {
            self.wrong = self.wrong.saturating_add(1);
        }
    }

    // A case that is due to hold; where it does not, two numbers that came are told.
    pub fn hold(&mut self, ok: bool, first: usize, second: usize) -> io::Result<()> {
        self.count_case(ok);
        if ok {
            return Ok(());
        }
        let place = self.place;
        println!(self.rt; "wrong at {place}: {first} {second}")
    }

    // A case whose answer is due to be this one, with both places.
    pub fn judge(&mut self, o: Result<(), Refusal>, due: Result<(), Refusal>) -> io::Result<()> {
        self.count(o);
        self.count_case(o == due);
        if o == due {
            return Ok(());
        }
        let at = self.place;
        let (number, place, second) = o.err().map_or((0, 0, 0), |f| (f.number, f.place, f.second));
        println!(self.rt; "wrong at {at}: {number} {place} {second}")
    }

    // A bound that is due to hold in round h; none was tried where the numbers are past 64 bits.
    pub fn hold_bound(&mut self, h: usize, holds: Option<bool>) -> io::Result<()> {
        match holds {
            None => self.too_big = self.too_big.saturating_add(1),
            Some(true) => self.bounds = self.bounds.saturating_add(1),
            Some(false) => self.hold(false, h, 0)?,
        }
        Ok(())
    }

    // The line of a group, whose count starts anew.
    pub fn close_group(&mut self, name: &[u8]) -> io::Result<()> {
        self.say_count(name, self.cases)?;
        self.cases = 0;
        Ok(())
    }

    pub fn say(&self, text: &[u8]) -> io::Result<()> {
        self.rt.write_all(text)
    }

    // A count that is not 0.
    fn say_count(&self, name: &[u8], n: usize) -> io::Result<()> {
        if n == 0 {
            return Ok(());
        }
        self.say(name)?;
        println!(self.rt; ": {n}")
    }

    // How often each refusal was seen, if it was.
    fn say_all_seen(&self) -> io::Result<()> {
        for (k, n) in self.seen.iter().enumerate().skip(1) {
            if *n != 0 {
                println!(self.rt; "refused {k}: {n}")?;
            }
        }
        Ok(())
    }

    pub fn say_table(&self) -> io::Result<()> {
        self.say_count(b"steps compared with the solver's", self.steps)?;
        self.say_count(b"bounds tried by the solver", self.bounds)?;
        self.say_count(b"bounds past 64 bits, not tried", self.too_big)?;
        self.say_count(b"accepted", self.seen[0])?;
        self.say_all_seen()?;
        let wrong = self.wrong;
        println!(self.rt; "{wrong} wrong")
    }
}
