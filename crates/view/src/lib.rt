// The view of a model folder as a struct: it holds the folder and where its bodies start, so that a lookup reads no
// contents.

#![tactic(auto)]

ghost use Rattle.std.specs.Prelude.{◌≡◌, ◌+◌, ◌<◌, length};
ghost use Rattle.model.specs.View.{view_start, view_part};
ghost use Rattle.view.specs.Starts.{starts_of, start_in, bytes_in, size_in, is_in};
ghost use Rattle.view.specs.Held.{Looked, Views};

// Anything can stand in the starts: a lookup stays within the folder all the same.
#[derive(Clone, Copy)]
pub struct View<'a> {
    model: &'a [u8],
    starts: [usize; 5],
}

impl View<'_> {
    // Where body e starts: past the last one, the folder's end.
    #[tactic(auto, unfolding(crate::specs::Starts::start_in))]
    fn start(&self, e: usize) -> usize
        ensures { result ≡ start_in (length self.now.model.now) self.now.starts e }
    {
        folder::get_or(&self.starts, e, self.model.len())
    }

    // How many bytes body e has: none where it would end before it starts.
    #[tactic(auto, unfolding(crate::specs::Starts::bytes_in))]
    fn bytes(&self, e: usize) -> usize
        requires { e < 5 }
        ensures { result ≡ bytes_in (length self.now.model.now) self.now.starts e }
    {
        self.start(e + 1).saturating_sub(self.start(e))
    }

    // How many bytes a record of body e has.
    #[tactic(auto, unfolding(crate::specs::Starts::size_in))]
    fn size(&self, e: usize) -> usize
        ensures { (result ≡ size_in (length self.now.model.now) self.now.starts e) × (0 < result) }
    {
        model::select(e, 4, 6, 8, 4, 2 + 2 * (self.bytes(1) / 6))
    }

    // There is such a body, it ends within the folder, and it has such a record.
    #[tactic(auto, unfolding(crate::specs::Starts::is_in))]
    fn has(&self, e: usize, i: usize) -> bool
        ensures { result ≡ is_in (length self.now.model.now) self.now.starts e i }
    {
        e < 5 && self.start(e + 1) <= self.model.len() && i < self.bytes(e) / self.size(e)
    }
}

// Where the bodies start, once causes 1 to 3 are ruled out. Else at the folder's end: no body has a record.
#[tactic(auto, unfolding(crate::specs::Starts::starts_of, folder::specs::Tab::tab))]
fn starts_of(m: &[u8]) -> [usize; 5]
    ensures { result ≡ starts_of m.now }
{
    if model::check_folder(m).is_ok() {
        std::array::from_fn(|e| folder::start_of(m, e))
    } else {
        [m.len(); 5]
    }
}

// The view of the folder m. Its contents are read and checked here, once.
pub fn view_of<'a>(m: &'a [u8]) -> View<'a>
    ensures { Views m.entry result }
{
    View {
        model: m,
        starts: starts_of(m),
    }
}

// Record i of body e, by what the struct holds. Where there is none, the empty part at the folder's start.
pub fn record_in<'a>(v: View<'a>, e: usize, i: usize) -> &'a [u8]
    ensures { Looked v.entry.model v.entry.starts e i result }
{
    if v.has(e, i) {
        let size = v.size(e);
        let at = v.start(e) + size * i;
        &v.model[at..at + size]
    } else {
        &v.model[..0]
    }
}

// The same from the folder alone, as model::record_part: whoever calls this holds no struct.
pub fn record_of<'a>(m: &'a [u8], e: usize, i: usize) -> &'a [u8]
    ensures result_value { result.now ≡ view_part m.now e i }
    ensures ref_ptr_value { result.ref_ptr ≡ (m.entry.ref_ptr.0, view_start m.now e i + m.entry.ref_ptr.1) }
{
    record_in(view_of(m), e, i)
}
