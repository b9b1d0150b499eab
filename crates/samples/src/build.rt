// Folders and numbers from text. All writing is total: past the buffer's end nothing happens.
use clamped::{byte, field, front, long};
use std::array;

// What a field of 2 bytes stays below.
const FIELD_LIMIT: usize = 65536;

// More characters than any text is read for.
const MOST: usize = 4000000;

// Numbers of a line at most, and the bytes that each is written into.
pub const MOST_NUMBERS: usize = 31;

const NUMBER_BYTES: usize = 4;

pub fn set(out: &mut [u8], k: usize, v: usize) {
    if let Some(b) = out.get_mut(k) {
        *b = (v % 256) as u8;
    }
}

pub fn put16(out: &mut [u8], at: usize, v: usize) {
    set(out, at, v);
    set(out, at.saturating_add(1), v / 256);
}

pub fn put32(out: &mut [u8], at: usize, v: usize) {
    put16(out, at, v);
    put16(out, at.saturating_add(2), v / FIELD_LIMIT);
}

// What is before a number: nothing, `-`, `#` or `~`.
#[derive(Clone, Copy)]
enum Mark {
    Plain,
    Negative,
    Long,
    Back,
}

// The number that is being read.
#[derive(Clone, Copy)]
struct Number {
    mark: Mark,
    value: usize,
}

// A group in brackets: where it starts, and how often it is still to be read.
#[derive(Clone, Copy)]
struct Group {
    start: usize,
    left: usize,
}

// Where reading and writing stand: the next character, the next byte, the body's start and entry, the bytes of a plain
// number, the number that was begun, and the group and the one around it.
#[derive(Clone, Copy)]
struct Pen {
    read: usize,
    at: usize,
    start: usize,
    entry: usize,
    size: usize,
    number: Option<Number>,
    group: Group,
    outer: Group,
}

impl Pen {
    fn new(at: usize, size: usize) -> Pen {
        let none = Group { start: 0, left: 0 };
        Pen {
            read: 0,
            at,
            start: at,
            entry: 0,
            size,
            number: None,
            group: none,
            outer: none,
        }
    }

    // What a number stands for.
    fn meant(&self, number: Number) -> usize {
        match number.mark {
            Mark::Negative => FIELD_LIMIT.saturating_sub(number.value),
            Mark::Back => (self.at.saturating_sub(self.start) / 8).saturating_sub(number.value),
            Mark::Plain | Mark::Long => number.value,
        }
    }

    // The number that was begun, written. A later one covers what a short one writes too much.
    fn end_number(&mut self, out: &mut [u8]) {
        if let Some(number) = self.number.take() {
            put32(out, self.at, self.meant(number));
            let size = if matches!(number.mark, Mark::Long) {
                4
            } else {
                self.size
            };
            self.at = self.at.saturating_add(size);
        }
    }

    fn end_body(&mut self, out: &mut [u8]) {
        self.end_number(out);
        let place = self.entry.saturating_mul(8);
        put32(out, place, self.start);
        put32(
            out,
            place.saturating_add(4),
            self.at.saturating_sub(self.start),
        );
        self.start = self.at;
        self.entry = self.entry.saturating_add(1);
    }

    // The number before the bracket says how often.
    fn open_group(&mut self) {
        self.outer = self.group;
        self.group = Group {
            start: self.read,
            left: self.number.take().map_or(0, |n| n.value),
        };
    }

    fn close_group(&mut self) {
        if self.group.left > 1 {
            self.group.left -= 1;
            self.read = self.group.start;
        } else {
            self.group = self.outer;
        }
    }

    // The number that was begun, or one that begins.
    fn begun(&self) -> Number {
        self.number.unwrap_or(Number {
            mark: Mark::Plain,
            value: 0,
        })
    }

    fn digit(&mut self, d: u8) {
        let number = self.begun();
        let value = number
            .value
            .saturating_mul(10)
            .saturating_add(usize::from(d));
        self.number = Some(Number { value, ..number });
    }

    fn mark(&mut self, mark: Mark) {
        let number = self.begun();
        self.number = Some(Number { mark, ..number });
    }

    // One character: a digit; `-`, `~` or `#` before a number; `[` after one, and `]`; `|` between bodies. Others end a
    // number.
    fn take(&mut self, out: &mut [u8], c: u8) {
        match c {
            b'0'..=b'9' => self.digit(c - b'0'),
            b'-' => self.mark(Mark::Negative),
            b'~' => self.mark(Mark::Back),
            b'#' => self.mark(Mark::Long),
            b'[' => self.open_group(),
            b']' => {
                self.end_number(out);
                self.close_group();
            }
            b'|' => self.end_body(out),
            _ => self.end_number(out),
        }
    }

    fn take_all(&mut self, out: &mut [u8], text: &[u8]) {
        for _ in 0..MOST {
            let Some(c) = text.get(self.read) else {
                return;
            };
            self.read = self.read.saturating_add(1);
            self.take(out, *c);
        }
    }
}

// A folder of k bodies; its length. The head of the script of `cases` says how the text is read.
pub fn fold(out: &mut [u8], k: usize, text: &[u8]) -> usize {
    let mut pen = Pen::new(k.saturating_mul(8), 2);
    pen.take_all(out, text);
    pen.end_body(out);
    pen.at
}

// The numbers of a text, as many as there is room for: those that were not written are 0.
#[derive(Clone, Copy)]
pub struct Numbers {
    pub each: [usize; MOST_NUMBERS],
    pub count: usize,
}

impl Numbers {
    fn read(text: &[u8]) -> Numbers {
        let mut s = [0u8; MOST_NUMBERS * NUMBER_BYTES];
        let mut pen = Pen::new(0, NUMBER_BYTES);
        pen.take_all(&mut s, text);
        pen.end_number(&mut s);
        Numbers {
            each: array::from_fn(|i| long(&s, i.saturating_mul(NUMBER_BYTES))),
            count: pen.at / NUMBER_BYTES,
        }
    }

    // The numbers before the colon, and those after it.
    pub fn asked_and_due(text: &[u8]) -> (Numbers, Numbers) {
        let (asked, due) = split(text, b':');
        (Numbers::read(asked), Numbers::read(due))
    }

    pub fn written(&self) -> &[usize] {
        front(&self.each, self.count)
    }

    // The pairs of an offset after `base` and a value, from number `from` on, written into their fields: also the last
    // offset, where no value follows. Done again with what it leaves here, it is undone.
    pub fn change(&mut self, out: &mut [u8], base: usize, from: usize) {
        let n = self.count.saturating_sub(from).div_ceil(2);
        if let Some(numbers) = self.each.get_mut(from..) {
            exchange_all(numbers, n, out, base);
        }
    }
}

// The first n pairs.
fn exchange_all(numbers: &mut [usize], n: usize, out: &mut [u8], base: usize) {
    for pair in numbers.chunks_exact_mut(2).take(n) {
        if let [offset, value] = pair {
            *value = exchanged(out, base.saturating_add(*offset), *value);
        }
    }
}

// The field at k gets the value v; what is to be put back.
fn exchanged(out: &mut [u8], k: usize, v: usize) -> usize {
    let old = field(out, k);
    put16(out, k, v);
    old
}

// What is before the first c, and from it on; with no c, nothing is.
pub fn split(s: &[u8], c: u8) -> (&[u8], &[u8]) {
    let n = s.iter().position(|x| *x == c).unwrap_or(s.len());
    s.split_at(n)
}

// Whether a part holds these bytes.
pub fn holds(part: &[u8], bytes: &[usize]) -> bool {
    part.len() == bytes.len() && part.iter().zip(bytes).all(|(x, y)| usize::from(*x) == *y)
}

// Whether a part holds the bytes of a line: of a longer one, those that there are numbers for.
pub fn holds_numbers(part: &[u8], bytes: &Numbers) -> bool {
    let each = &bytes.each;
    part.len() == bytes.count
        && each
            .iter()
            .enumerate()
            .all(|(i, x)| usize::from(byte(part, i)) == *x)
}

// Document 01's pedal example.
pub fn pedal_model(out: &mut [u8]) -> usize {
    fold(
        out,
        5,
        b"10 8 | 0 3 0  0 1 0 | 1 0 0 0  1 1 0 0  0 2 0 0  0 3 0 0  0 0 0 0  0 1 0 0 \
        9 0 2 0  8 0 4 0  8 0 2 0  2 0 5 0  5 9 2 0  3 5 1 0 | 6 2  7 1 | 9 3 1  1 10 1  10 0 11",
    )
}

pub fn pedal_graph(out: &mut [u8]) -> usize {
    fold(
        out,
        2,
        b"1 0 #10000000 2 1 0 0 0 0  1 0 #0 0 1 3 0 3 0  1 0 #100000000 1 1 1 0 1 0 \
        2 0 #10000000 0 1 0 1 0 0  2 1 #0 0 1 3 0 3 0  3 0 #1000000000 0 1 2 0 2 0 | 0 1 2  1 3  0 4 5",
    )
}

#[cfg(test)]
mod tests {
    use super::*;

    // More bytes than a line has numbers for, of which the last may differ.
    fn long_part(last: u8) -> [u8; MOST_NUMBERS + 3] {
        array::from_fn(|i| { if i == MOST_NUMBERS + 2 { last } else { 7 } })
    }

    #[test]
    fn holds_all_of_a_part(rt: HostRuntime) {
        let sevens = [7; MOST_NUMBERS + 3];
        let cases: [(&[u8], &[usize], bool); 7] = [
            (b"", &[], true),
            (b"ab", &[97, 98], true),
            (b"ab", &[97, 99], false),
            (b"ab", &[97], false),
            (b"ab", &[97, 98, 0], false),
            (b"ab", &[97, 354], false),
            (b"ab", &[], false),
        ];
        for (part, bytes, due) in cases {
            assert_eq!(rt; holds(part, bytes), due);
        }
        assert!(rt; holds(&long_part(7), &sevens));
        assert!(rt; !holds(&long_part(8), &sevens));
    }
}
