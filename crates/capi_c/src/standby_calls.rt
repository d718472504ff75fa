// The standby's calls for C: `capi` has the calls, and here stand their clauses again.
ghost use Rattle.capi.specs.StandbyCalls.{as_lent, ReadDone, FlushDone, StandbyTickDone, ActivationDone, ActiveMemoryWriteDone, ActiveDiskWriteDone, StandbySumDone};

// Read: at most one record of the stream.
#[unsafe(no_mangle)]
pub extern "C" fn standby_read(
    state: &mut [u64],
    pending: &mut [u8; 64],
    processor: &mut [u8; 64],
    memory: &mut [u8],
    pages: &mut [u8],
    marks: &mut [u64],
    blocks: &mut [u8],
    bytes: &[u8],
    reply: &mut [u8],
) -> u64
    ensures { ReadDone (as_lent state.old pending.old processor.old) memory.old pages.old marks.old blocks.old bytes.now reply.old result (as_lent state.new pending.new processor.new) memory.new pages.new marks.new blocks.new reply.new }
{
    capi::standby_calls::standby_read(
        state, pending, processor, memory, pages, marks, blocks, bytes, reply,
    )
}

// Flush: stores blocks that are due.
#[unsafe(no_mangle)]
pub extern "C" fn standby_flush(
    state: &mut [u64],
    pending: &mut [u8; 64],
    processor: &mut [u8; 64],
    blocks: &mut [u8],
    disk: &mut [u8],
    n: usize,
) -> u64
    ensures { FlushDone (as_lent state.old pending.old processor.old) blocks.old disk.old n result (as_lent state.new pending.new processor.new) blocks.new disk.new }
{
    capi::standby_calls::standby_flush(state, pending, processor, blocks, disk, n)
}

// Tick.
#[unsafe(no_mangle)]
pub extern "C" fn standby_tick(
    state: &mut [u64],
    pending: &mut [u8; 64],
    processor: &mut [u8; 64],
    marks: &mut [u64],
) -> u64
    ensures { StandbyTickDone (as_lent state.old pending.old processor.old) marks.old result (as_lent state.new pending.new processor.new) marks.new }
{
    capi::standby_calls::standby_tick(state, pending, processor, marks)
}

// Activation: writes the record, and the standby is active.
#[unsafe(no_mangle)]
pub extern "C" fn standby_activate(
    state: &mut [u64],
    pending: &mut [u8; 64],
    processor: &mut [u8; 64],
    area: &mut [u8],
) -> u64
    ensures { ActivationDone (as_lent state.old pending.old processor.old) area.old result (as_lent state.new pending.new processor.new) area.new }
{
    capi::standby_calls::standby_activate(state, pending, processor, area)
}

// Memory write of the guest, once the standby is active.
#[unsafe(no_mangle)]
pub extern "C" fn standby_memory_write(
    state: &mut [u64],
    pending: &mut [u8; 64],
    processor: &mut [u8; 64],
    memory: &mut [u8],
    page: usize,
    offset: usize,
    bytes: &[u8],
) -> u64
    ensures { ActiveMemoryWriteDone (as_lent state.old pending.old processor.old) memory.old page offset bytes.now result (as_lent state.new pending.new processor.new) memory.new }
{
    capi::standby_calls::standby_memory_write(
        state, pending, processor, memory, page, offset, bytes,
    )
}

// Disk write of the guest, once the standby is active.
#[unsafe(no_mangle)]
pub extern "C" fn standby_disk_write(
    state: &mut [u64],
    pending: &mut [u8; 64],
    processor: &mut [u8; 64],
    disk: &mut [u8],
    block: usize,
    bytes: &[u8],
) -> u64
    ensures { ActiveDiskWriteDone (as_lent state.old pending.old processor.old) disk.old block bytes.now result (as_lent state.new pending.new processor.new) disk.new }
{
    capi::standby_calls::standby_disk_write(state, pending, processor, disk, block, bytes)
}

// Sum: of the memory, pages in the order that is lent.
#[unsafe(no_mangle)]
pub extern "C" fn standby_sum(
    state: &[u64],
    pending: &[u8; 64],
    processor: &[u8; 64],
    memory: &[u8],
    order: &[u64],
) -> u64
    ensures { StandbySumDone (as_lent state.now pending.now processor.now) memory.now order.now result }
{
    capi::standby_calls::standby_sum(state, pending, processor, memory, order)
}
