// Runs the library on a script of cases, a line each, that is read from standard input; the script's head says what the
// lines are.

#![tactic(auto)]

use clamped::{front, long};
use folder::Refusal;
use graph::Summary;
use lookup::index_case;
use samples::build::{MOST_NUMBERS, Numbers, fold, holds_numbers, split};
use solver::{Asked, Folders};
use std::io;
use std::io::Read;
use tally::{Run, answer, answer_at};
use witness::{Built, box_steps, build_case, figure_case, summary_case, zero_step};

// The longest model and the longest graph, and one byte more of each.
const MODEL_ROOM: usize = 40000 + 1;

const GRAPH_ROOM: usize = 1048576 + 1;

// The graph stands in the room after the model's.
const GRAPH: usize = MODEL_ROOM;

const ROOM: usize = MODEL_ROOM + GRAPH_ROOM;

// Bytes for the script.
const SCRIPT_ROOM: usize = 65536;

// Numbers of an index line before its batch.
const ROWS: usize = 3;

// How long the model and the graph in the room are.
#[derive(Clone, Copy)]
struct Lengths {
    model: usize,
    graph: usize,
}

// The bytes from `from` on, as far as there are any.
fn past(s: &[u8], from: usize) -> &[u8] {
    s.get(from..).unwrap_or(&[])
}

fn past_mut(s: &mut [u8], from: usize) -> &mut [u8] {
    let from = from.min(s.len());
    &mut s[from..]
}

impl Lengths {
    fn folders<'a>(self, room: &'a [u8]) -> Folders<'a> {
        Folders {
            model: front(room, self.model),
            graph: front(past(room, GRAPH), self.graph),
        }
    }

    // Of the folders that a line asks about: some name a length.
    fn named(self, kind: u8, length: usize) -> Lengths {
        match kind {
            b'z' | b'v' => Lengths {
                model: length,
                ..self
            },
            b'Z' => Lengths {
                graph: length,
                ..self
            },
            _ => self,
        }
    }
}

fn figure_at(row: &[u32], k: usize) -> usize {
    row.get(k).map_or(0, |x| *x as usize)
}

// Figures that are not as due: the first that is not is told, and where only the lengths differ, the most numbers.
fn row_case<R: Print>(run: &mut Run<R>, f: Folders, h: usize, due: &Numbers) -> io::Result<()> {
    let mut first = [9u32; 8];
    let mut second = [9u32; 8];
    let row = laguipy::figure(f.model, f.graph, h, &mut first, &mut second);
    let each = &due.each;
    let same = each
        .iter()
        .enumerate()
        .take_while(|(k, x)| figure_at(row, *k) == **x)
        .count();
    run.hold(
        same == MOST_NUMBERS && row.len() == due.count,
        same,
        figure_at(row, same),
    )
}

fn summary_of(d: [usize; 5]) -> Summary {
    let [root, expanded, covered, target, waiting] = d;
    Summary {
        root,
        expanded,
        covered,
        target,
        waiting,
    }
}

fn summary_due(d: &Numbers) -> Summary {
    let d = &d.each;
    summary_of([d[0], d[1], d[2], d[3], d[4]])
}

// The answer that a line has as due.
fn answer_due(d: &Numbers) -> Result<(), Refusal> {
    let d = &d.each;
    answer_at(d[0], d[1], d[2])
}

// A line's answer of the build call has no second place: what stands there is the length of the graph built.
fn build_line<R: Print>(
    run: &mut Run<R>,
    m: &[u8],
    asked: &Numbers,
    due: &Numbers,
) -> io::Result<()> {
    let a = &asked.each;
    let d = &due.each;
    let built = Built {
        length: d[2],
        summary: summary_of([d[3], d[4], d[5], d[6], d[7]]),
    };
    build_case(run, m, a[0], a[1], answer(d[0], d[1]), built)
}

// By the plain call and by the struct.
fn record_case<R: Print>(
    run: &mut Run<R>,
    m: &[u8],
    e: usize,
    i: usize,
    due: &Numbers,
) -> io::Result<()> {
    let plain = laguipy::record_part(m, e, i);
    let held = view::record_of(m, e, i);
    run.hold(
        holds_numbers(plain, due) && holds_numbers(held, due),
        plain.len(),
        long(plain, 0),
    )
}

// FNV-1a of the bytes that a line names, step by step.
fn hash_of(bytes: &[usize]) -> u32 {
    bytes.iter().fold(hash::FNV_START, |h, b| hash::fnv_step(h, (*b % 256) as u8))
}

// Lines whose answer is no refusal.
fn value_case<R: Print>(
    run: &mut Run<R>,
    f: Folders,
    kind: u8,
    asked: &Numbers,
    due: &Numbers,
) -> io::Result<()> {
    let a = &asked.each;
    match kind {
        b'r' => row_case(run, f, a[0], due),
        b'c' => summary_case(run, f, summary_due(due)),
        b'v' => record_case(run, f.model, a[1], a[2], due),
        b'h' => {
            let h = hash_of(asked.written()) as usize;
            run.hold(h == due.each[0], h, 0)
        }
        _ => run.hold(false, 0, 0),
    }
}

fn index_line<R: Print>(
    run: &mut Run<R>,
    f: Folders,
    asked: &Numbers,
    due: &Numbers,
) -> io::Result<()> {
    let a = &asked.each;
    let values = a.get(ROWS..).unwrap_or(&[]);
    let n = asked.count.saturating_sub(ROWS);
    index_case(run, f, [a[0], a[1], a[2]], values, n, answer_due(due))
}

fn step_asked(asked: &Numbers) -> Asked {
    let a = &asked.each;
    Asked {
        room: a[0],
        values: a[1],
        command: a[2],
        branch: a[3],
    }
}

// The letters are those of the script's lines, which its head explains: each stands in one place here, and a type with a
// name for each would only be one list more.
fn asked_case<R: Print>(
    run: &mut Run<R>,
    f: Folders,
    kind: u8,
    asked: &Numbers,
    due: &Numbers,
) -> io::Result<()> {
    let a = &asked.each;
    match kind {
        b'm' | b'z' => run.judge(laguipy::model_check(f.model), answer_due(due)),
        b'g' | b'Z' => {
            let o = laguipy::graph_check(f.model, f.graph).map(|_| ());
            run.judge(o, answer_due(due))
        }
        b'f' => figure_case(run, f, a[0], a[1], a[2], answer_due(due)),
        b'i' => index_line(run, f, asked, due),
        b'B' => build_line(run, f.model, asked, due),
        b's' => zero_step(run, f.model, step_asked(asked)),
        b'b' => box_steps(run, f.model),
        _ => value_case(run, f, kind, asked, due),
    }
}

// Where a line's changes are, and after how many of its numbers they begin.
fn changes(kind: u8) -> (usize, usize) {
    match kind {
        b'm' => (0, 0),
        b'g' => (GRAPH, 0),
        b'f' => (GRAPH, 3),
        _ => (0, MOST_NUMBERS),
    }
}

// The changes that a line names are made for it, and then undone.
fn case<R: Print>(
    run: &mut Run<R>,
    room: &mut [u8],
    lengths: Lengths,
    kind: u8,
    body: &[u8],
) -> io::Result<()> {
    let (asked, due) = Numbers::asked_and_due(body);
    let (base, from) = changes(kind);
    let mut changed = asked;
    changed.change(room, base, from);
    let f = lengths.named(kind, asked.each[0]).folders(room);
    asked_case(run, f, kind, &asked, &due)?;
    changed.change(room, base, from);
    Ok(())
}

// A line, with its end; the folders after it.
fn line<R: Print>(
    run: &mut Run<R>,
    room: &mut [u8],
    lengths: Lengths,
    text: &[u8],
) -> io::Result<Lengths> {
    let (line, _name) = split(text, b';');
    let body = past(line, 2);
    let mut after = lengths;
    match text.first().copied() {
        None | Some(0 | b'\n' | b'#') => (),
        Some(b'=') => run.close_group(body)?,
        Some(b'M') => after.model = fold(room, 5, body),
        Some(b'G') => after.graph = fold(past_mut(room, GRAPH), 2, body),
        Some(kind) => case(run, room, lengths, kind, body)?,
    }
    Ok(after)
}

// A line that is wrong is told after what was wrong of it.
fn told_line<R: Print>(
    run: &mut Run<R>,
    room: &mut [u8],
    lengths: Lengths,
    text: &[u8],
) -> io::Result<Lengths> {
    let before = run.wrong();
    let after = line(run, room, lengths, text)?;
    if run.wrong() != before {
        run.say(text)?;
    }
    Ok(after)
}

fn run_script<R: Print>(run: &mut Run<R>, room: &mut [u8], script: &[u8]) -> io::Result<()> {
    let mut lengths = Lengths { model: 0, graph: 0 };
    for (i, text) in script.split_inclusive(|c| *c == b'\n').enumerate() {
        run.go_to(i.saturating_add(1));
        lengths = told_line(run, room, lengths, text)?;
    }
    Ok(())
}

// Reads until the input ends or the buffer is full; how many bytes.
fn read_full(input: &mut impl Read, buf: &mut [u8]) -> io::Result<usize> {
    let mut at = 0;
    // No loop over a range: each turn goes on by as many bytes as came.
    while at < buf.len() {
        let n = input.read(&mut buf[at..])?;
        if n == 0 {
            return Ok(at);
        }
        at += n;
    }
    Ok(at)
}

// A script that fills its room may have been cut: that is wrong, at line 0.
fn start<R: Print + Input>(
    rt: &R,
    room: &mut [u8; ROOM],
    script: &mut [u8; SCRIPT_ROOM],
) -> io::Result<()> {
    let n = read_full(&mut rt.reader(), script)?;
    let mut run = Run::new(rt);
    run.hold(n < SCRIPT_ROOM, n, 0)?;
    run_script(&mut run, room, front(script, n))?;
    run.say_table()
}

fn main(rt: HostRuntime) -> io::Result<()> {
    let mut room = [0; ROOM];
    let mut script = [0; SCRIPT_ROOM];
    start(&rt, &mut room, &mut script)
}
