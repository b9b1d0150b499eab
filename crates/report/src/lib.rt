// What the check program prints, written into a lent slice.

#![tactic(auto)]

ghost use Rattle.std.specs.Prelude.{◌≡◌, ◌+◌, ◌/◌, ◌≤◌, length, Ok};
ghost use Rattle.folder.specs.Fields.{field_limit};
ghost use Rattle.text.specs.Text.{Holds, written};
ghost use Rattle.model.specs.Model.{model_of};
ghost use Rattle.graph.specs.Limits.{most_steps};
ghost use Rattle.graph.specs.Simulation.{simulation_of};
ghost use Rattle.graph.specs.Table.{summary};
ghost use Rattle.graph.specs.Valid.{Valid};
ghost use Rattle.report.specs.Room.{text_room, line_room, latest_line};
ghost use Rattle.report.specs.Report.{counts_line, root_line, within_line, figure_lines, refused_line};
ghost use Rattle.report.specs.Report.{root_figure, text_of, report_text};

use folder::Refusal;
use graph::{MOST_NODES, Summary};

// Bytes for the whole text, which is never longer.
pub const TEXT_ROOM: usize = 512;

// A refusal's line.
fn put_refusal(out: &mut [u8], f: Refusal) -> usize
    requires { line_room ≤ length out.old }
    ensures { Holds out.old (refused_line f) out.new result }
{
    let a = text::put(out, 0, b"refused ");
    let b = text::put_decimal(out, a, f.number);
    let c = text::put(out, b, b" ");
    let d = text::put_decimal(out, c, f.place);
    text::put(out, d, b"\n")
}

// The counts' line.
fn put_counts(out: &mut [u8], s: Summary) -> usize
    requires { (line_room ≤ length out.old) × (s.expanded ≤ field_limit) × (s.covered ≤ field_limit) × (s.target ≤ field_limit) × (s.waiting ≤ field_limit) }
    ensures { Holds out.old (counts_line s) out.new result × (result ≤ 160) }
{
    let all = s.expanded + s.covered + s.target + s.waiting;
    let a = text::put(out, 0, b"accepted ");
    let b = text::put_count(out, a, all, b" nodes ");
    let c = text::put_count(out, b, s.expanded, b" expanded ");
    let d = text::put_count(out, c, s.covered, b" covered ");
    let e = text::put_count(out, d, s.target, b" target ");
    text::put_count(out, e, s.waiting, b" waiting\n")
}

// The root value's line, at `at`.
fn put_root(out: &mut [u8], at: usize, root: usize) -> usize
    requires { (at + 26 ≤ length out.old) × (at ≤ latest_line) }
    ensures { (result ≡ at + length (root_line root)) × (out.new ≡ written out.old at (root_line root)) × (result ≤ at + 26) }
{
    let k = text::put(out, at, b"root ");
    text::put_count(out, k, root, b"\n")
}

// The line of the root's figure f for h steps, at `at`.
fn put_within(out: &mut [u8], at: usize, h: usize, f: usize) -> usize
    requires { (at + 49 ≤ length out.old) × (at ≤ latest_line) }
    ensures { (result ≡ at + length (within_line h f)) × (out.new ≡ written out.old at (within_line h f)) × (result ≤ at + 49) }
{
    let k = text::put(out, at, b"within ");
    let j = text::put_count(out, k, h, b" ");
    text::put_count(out, j, f, b"\n")
}

// The four lines of the root's figures, at `at`.
fn put_figures(out: &mut [u8], at: usize, f0: usize, f1: usize, f2: usize, f3: usize) -> usize
    requires { (at + 196 ≤ length out.old) × (at ≤ latest_line / 2) }
    ensures { (result ≡ at + length (figure_lines f0 f1 f2 f3)) × (out.new ≡ written out.old at (figure_lines f0 f1 f2 f3)) × (result ≤ at + 196) }
{
    let a = put_within(out, at, 0, f0);
    let b = put_within(out, a, 1, f1);
    let c = put_within(out, b, 2, f2);
    put_within(out, c, 3, f3)
}

// The root's figure for h steps. The graph is not checked again.
fn root_figure(model: &[u8], graph: &[u8], h: usize) -> usize
    requires valid { Valid model.now graph.now }
    requires graph_value { ((summary (simulation_of (model_of model.now) graph.now)).waiting ≡ 0) × (h ≤ most_steps) }
    ensures { result ≡ root_figure model.now graph.now h }
{
    let mut first = [0u32; MOST_NODES];
    let mut second = [0u32; MOST_NODES];
    let _ = figures::figure_fill(model, graph, h, &mut first, &mut second);
    if h % 2 == 0 {
        first[0] as usize
    } else {
        second[0] as usize
    }
}

// The lines of an accepted graph.
fn put_accepted(model: &[u8], graph: &[u8], s: Summary, out: &mut [u8]) -> usize
    requires valid { Valid model.now graph.now }
    requires s_value { (s ≡ summary (simulation_of (model_of model.now) graph.now)) × (text_room ≤ length out.old) }
    ensures { Holds out.old (text_of (Ok s) (root_figure model.now graph.now)) out.new result }
{
    let a = put_counts(out, s);
    let b = put_root(out, a, s.root);
    if s.waiting != 0 {
        return b;
    }
    let f0 = root_figure(model, graph, 0);
    let f1 = root_figure(model, graph, 1);
    let f2 = root_figure(model, graph, 2);
    let f3 = root_figure(model, graph, 3);
    put_figures(out, b, f0, f1, f2, f3)
}

// What is printed of two files' bytes, at the start of `out`; where it ends. The graph is checked once.
pub fn report(model: &[u8], graph: &[u8], out: &mut [u8; TEXT_ROOM]) -> usize
    ensures { Holds out.old (report_text model.now graph.now) out.new result }
{
    match laguipy::graph_check(model, graph) {
        Err(f) => put_refusal(out, f),
        Ok(s) => put_accepted(model, graph, s, out),
    }
}
