// The check program: reads model.fold and graph.fold, and prints the report. Which bytes are read and written no
// contract can say; that of `text_of` says which text comes of what was read.

#![tactic(auto)]

ghost use Rattle.std.specs.Prelude.{◌≤◌, length};
ghost use Rattle.text.specs.Text.{Holds};
ghost use Rattle.check_graph.specs.Printed.{Within, file_text, printed};
ghost use Rattle.report.specs.Report.{report_text};

use report::TEXT_ROOM;
use std::fs::File;
use std::io;
use std::io::Read;
use std::rt::Files;

// Bytes that are taken of a file.
const MOST: usize = 65536;
// One byte more, so that a longer file shows.
const ROOM: usize = MOST + 1;

// One read into buf from `at` on; 0 bytes where the file ends.
fn read_some(file: &mut impl Read, buf: &mut [u8], at: usize) -> Option<usize>
    requires { at ≤ length buf.old }
    ensures { Within result at buf.old }
{
    file.read(&mut buf[at..]).ok()
}

// Reads until the file ends or the buffer is full: a read may give less than there is, so the turns aren't counted.
fn read_all(file: &mut impl Read, buf: &mut [u8; ROOM]) -> Option<usize> {
    let mut at = 0;
    while at < ROOM {
        let n = read_some(file, buf, at)?;
        if n == 0 {
            return Some(at);
        }
        at += n;
    }
    Some(at)
}

// How many bytes of the file stand in the buffer. A folder in place of a file may be opened, and then cannot be read.
fn read_file(rt: &impl Files, name: &str, buf: &mut [u8; ROOM]) -> Option<usize> {
    let mut file = File::open(rt, name).ok()?;
    read_all(&mut file, buf)
}

// The text for a model of these bytes, at the start of `out`; where it ends.
fn graph_text(
    model: &[u8],
    g: Option<usize>,
    graph: &[u8; ROOM],
    out: &mut [u8; TEXT_ROOM],
) -> usize
    ensures { Holds out.old (file_text g graph.now (report_text model.now)) out.new result }
{
    let bytes: &[u8] = graph;
    match g {
        None => text::put(out, 0, b"no file\n"),
        Some(k) => {
            if k <= MOST {
                report::report(model, &bytes[..k], out)
            } else {
                text::put(out, 0, b"too long\n")
            }
        }
    }
}

// The text for what reading both files gave, at the start of `out`; where it ends.
fn text_of(
    m: Option<usize>,
    model: &[u8; ROOM],
    g: Option<usize>,
    graph: &[u8; ROOM],
    out: &mut [u8; TEXT_ROOM],
) -> usize
    ensures { Holds out.old (printed m model.now g graph.now) out.new result }
{
    let bytes: &[u8] = model;
    match m {
        None => text::put(out, 0, b"no file\n"),
        Some(n) => {
            if n <= MOST {
                graph_text(&bytes[..n], g, graph, out)
            } else {
                text::put(out, 0, b"too long\n")
            }
        }
    }
}

fn main(rt: HostRuntime) -> io::Result<()> {
    let mut model = [0u8; ROOM];
    let mut graph = [0u8; ROOM];
    let mut out = [0u8; TEXT_ROOM];
    let m = read_file(&rt, "model.fold", &mut model);
    let g = read_file(&rt, "graph.fold", &mut graph);
    let n = text_of(m, &model, g, &graph, &mut out);
    rt.write_all(&out[..n])
}
