// Dirty pages as PAGE records into the stream, marked pages from the staged pages into memory, and a guest's write.
// Both loops go from marked page to marked page.
#![tactic(auto)]

ghost use Rattle.std.specs.Prelude.{◌≡◌, ◌+◌, ◌*◌, ◌^◌, ◌<◌, ◌≤◌, length};
ghost use Rattle.lists.specs.Part.{put, PutDone};
ghost use Rattle.lists.specs.Page.{page, with_page};
ghost use Rattle.records.specs.Kind.{page_kind, number_width, record_length};
ghost use Rattle.records.specs.Write.{page_record};
ghost use Rattle.marks.specs.Mark.{count_marks};
ghost use Rattle.pages.specs.Dirty.{dirty_records, installed};
ghost use Rattle.pages.specs.Write.{inside_page, written};

// The PAGE record of page p into out from at on; the position behind it.
fn write_one(
    out: &mut [u8],
    at: usize,
    memory: &[u8],
    wide: bool,
    u: usize,
    epoch: u32,
    p: usize,
) -> usize
    requires { (at + record_length u (page_kind wide) ≤ length out.old) × (p * u + u ≤ length memory.now) × (p < 256 ^ number_width wide) × (u + (4 + number_width wide) < 2 ^ 16) }
    ensures { PutDone (page_record wide epoch p (page u memory.now p)) out.old at out.new result }
{
    let body = lists::part_of(memory, p * u, u);
    let n = records::writing::write_page(&mut out[at..], wide, epoch, p, body);
    at + n
}

// "every dirty page" as a PAGE record, in rising order, at the head of the part that is handed in; the length written.
// No struct of wide, u, epoch and m: they go together here and in the one caller alone (primary/src/checkpoint.rt).
pub fn write_dirty(
    out: &mut [u8],
    memory: &[u8],
    dirty: &[u64],
    wide: bool,
    u: usize,
    epoch: u32,
    m: usize,
) -> usize
    requires { (length memory.now ≡ m * u) × (m ≤ 256 ^ number_width wide) × (u + (4 + number_width wide) < 2 ^ 16) × (count_marks dirty.now m * record_length u (page_kind wide) ≤ length out.old) }
    ensures { (out.new ≡ put out.old 0 (dirty_records memory.now dirty.now wide u epoch m)) × (result ≡ count_marks dirty.now m * record_length u (page_kind wide)) }
{
    let mut at = 0;
    for page in marks::marked(dirty, m) {
        // An arm for each width, which is then known to the compiler inside it (docs/BENCHMARKS.md).
        if wide {
            at = write_one(out, at, memory, true, u, epoch, page);
        } else {
            at = write_one(out, at, memory, false, u, epoch, page);
        }
    }
    at
}

// Page p of memory becomes the staged one.
fn install_one(memory: &mut [u8], staged: &[u8], u: usize, p: usize)
    requires { (p * u + u ≤ length memory.old) × (p * u + u ≤ length staged.now) }
    ensures { memory.new ≡ with_page u memory.old p (page u staged.now p) }
{
    let at = p * u;
    lists::copy_into(memory, at, lists::part_of(staged, at, u));
}

// "copies the staged pages into memory": those that are marked.
pub fn install(memory: &mut [u8], staged: &[u8], marks: &[u64], u: usize, m: usize)
    requires { (length memory.old ≡ m * u) × (length staged.now ≡ m * u) }
    ensures { memory.new ≡ installed memory.old staged.now marks.now u m }
{
    for page in marks::marked(marks, m) {
        install_one(memory, staged, u, page);
    }
}

// "1 to U bytes inside one page". No sum is made, so none can wrap.
pub fn inside_page(u: usize, offset: usize, n: usize) -> bool
    ensures { result ≡ inside_page u offset n }
{
    offset <= u && 1 <= n && n <= u - offset
}

// The bytes into their page, from the offset on.
pub fn write(memory: &mut [u8], u: usize, page: usize, offset: usize, bytes: &[u8])
    requires { page * u + offset + length bytes.now ≤ length memory.old }
    ensures { memory.new ≡ written u memory.old page offset bytes.now }
{
    lists::copy_into(memory, page * u + offset, bytes);
}
