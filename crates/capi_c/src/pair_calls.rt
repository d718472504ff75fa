// Start, the disk choice, and a page's part of a sum, for C: `capi` has the calls, and here stand their clauses again.
ghost use Rattle.std.specs.Prelude.{◌≡◌, length};
ghost use Rattle.rules.specs.Choose.{choice_of};
ghost use Rattle.capi.specs.StandbyCalls.{as_lent};
ghost use Rattle.capi.specs.PairCalls.{lent_buffers, StartDone, choice_word, page_sum_word};

// Start, lent every buffer of both ends, in the order of tests/calls/FORM.md, and room for the two states.
#[unsafe(no_mangle)]
pub extern "C" fn pair_start(
    settings: &[u64],
    first: &[u8; 64],
    memory: &[u8],
    disk: &[u8],
    dirty: &mut [u64],
    held: &[u8],
    stream: &[u8],
    smemory: &mut [u8],
    sdisk: &mut [u8],
    pages: &[u8],
    marks: &mut [u64],
    blocks: &[u8],
    area: &mut [u8],
    primary: &mut [u64],
    standby: &mut [u64],
    pending: &mut [u8; 64],
    processor: &mut [u8; 64],
) -> u64
    ensures { StartDone settings.now first.now (lent_buffers memory.now disk.now dirty.old held.now stream.now smemory.old sdisk.old pages.now marks.old blocks.now area.old) primary.old (as_lent standby.old pending.old processor.old) result dirty.new smemory.new sdisk.new marks.new area.new primary.new (as_lent standby.new pending.new processor.new) }
{
    capi::pair_calls::pair_start(
        settings, first, memory, disk, dirty, held, stream, smemory, sdisk, pages, marks, blocks,
        area, primary, standby, pending, processor,
    )
}

// The disk choice.
#[unsafe(no_mangle)]
pub extern "C" fn pair_disk_choice(primary: &[u8], standby: &[u8], area: &[u8]) -> u64
    ensures { result ≡ choice_word (choice_of (length primary.now) (length standby.now) area.now) }
{
    capi::pair_calls::pair_disk_choice(primary, standby, area)
}

// A page's own part of a sum.
#[unsafe(no_mangle)]
pub extern "C" fn pair_page_sum(image: &[u8], u: usize, page: usize) -> u64
    ensures { result ≡ page_sum_word u image.now page }
{
    capi::pair_calls::pair_page_sum(image, u, page)
}
