// The primary's calls for C: `capi` has the calls, and here stand their clauses again.
ghost use Rattle.capi.specs.PrimaryCalls.{MemoryWriteDone, DiskWriteDone, PacketDone, CheckpointDone, DrainDone, AckDone, TakeDone, PrimaryTickDone, PrimarySumDone};

// Memory write: bytes inside one page, which becomes dirty.
#[unsafe(no_mangle)]
pub extern "C" fn primary_memory_write(
    state: &mut [u64],
    memory: &mut [u8],
    dirty: &mut [u64],
    page: usize,
    offset: usize,
    bytes: &[u8],
) -> u64
    ensures { MemoryWriteDone state.old memory.old dirty.old page offset bytes.now result state.new memory.new dirty.new }
{
    capi::primary_calls::primary_memory_write(state, memory, dirty, page, offset, bytes)
}

// Disk write: one block.
#[unsafe(no_mangle)]
pub extern "C" fn primary_disk_write(
    state: &mut [u64],
    disk: &mut [u8],
    stream: &mut [u8],
    block: usize,
    bytes: &[u8],
) -> u64
    ensures { DiskWriteDone state.old disk.old stream.old block bytes.now result state.new disk.new stream.new }
{
    capi::primary_calls::primary_disk_write(state, disk, stream, block, bytes)
}

// Packet: held with the open epoch and a port.
#[unsafe(no_mangle)]
pub extern "C" fn primary_packet(
    state: &mut [u64],
    held: &mut [u8],
    port: usize,
    bytes: &[u8],
) -> u64
    ensures { PacketDone state.old held.old port bytes.now result state.new held.new }
{
    capi::primary_calls::primary_packet(state, held, port, bytes)
}

// Checkpoint: every dirty page, STATE and COMMIT go to the stream, and the next epoch is open.
#[unsafe(no_mangle)]
pub extern "C" fn primary_checkpoint(
    state: &mut [u64],
    memory: &[u8],
    dirty: &mut [u64],
    stream: &mut [u8],
    processor: &[u8; 64],
) -> u64
    ensures { CheckpointDone state.old memory.now dirty.old stream.old processor.now result state.new dirty.new stream.new }
{
    capi::primary_calls::primary_checkpoint(state, memory, dirty, stream, processor)
}

// Drain: the head of the stream moves to the destination.
#[unsafe(no_mangle)]
pub extern "C" fn primary_drain(
    state: &mut [u64],
    stream: &mut [u8],
    n: usize,
    destination: &mut [u8],
) -> u64
    ensures { DrainDone state.old stream.old n destination.old result state.new stream.new destination.new }
{
    capi::primary_calls::primary_drain(state, stream, n, destination)
}

// ACK: reads one.
#[unsafe(no_mangle)]
pub extern "C" fn primary_acknowledge(state: &mut [u64], bytes: &[u8]) -> u64
    ensures { AckDone state.old bytes.now result state.new }
{
    capi::primary_calls::primary_acknowledge(state, bytes)
}

// Take: a port's oldest packet, if it is free to go.
#[unsafe(no_mangle)]
pub extern "C" fn primary_take(
    state: &mut [u64],
    held: &mut [u8],
    port: usize,
    destination: &mut [u8],
) -> u64
    ensures { TakeDone state.old held.old port destination.old result state.new held.new destination.new }
{
    capi::primary_calls::primary_take(state, held, port, destination)
}

// Tick.
#[unsafe(no_mangle)]
pub extern "C" fn primary_tick(state: &mut [u64]) -> u64
    ensures { PrimaryTickDone state.old result state.new }
{
    capi::primary_calls::primary_tick(state)
}

// Sum: of the memory, pages in rising order.
#[unsafe(no_mangle)]
pub extern "C" fn primary_sum(state: &[u64], memory: &[u8]) -> u64
    ensures { PrimarySumDone state.now memory.now result }
{
    capi::primary_calls::primary_sum(state, memory)
}
