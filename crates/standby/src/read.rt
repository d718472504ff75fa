// Reading one record of the stream.
ghost use Rattle.std.specs.Prelude.{◌≡◌};
ghost use Rattle.rules.specs.Reply.{Answered};
ghost use Rattle.rules.specs.Judge.{judged};
ghost use Rattle.rules.specs.Read.{read_lent, read_reply, read_memory, read_staged_pages, read_staged_marks, read_staged_blocks, read_reply_bytes};

use crate::{effects, judge};
use rules::{ReadLent, ReadReply, Standby};

// Reads at most one record from the head of the bytes. What is cut short or refused changes nothing and may be given
// again.
#[tactic(auto, unfolding(rules::specs::Read::read_reply, rules::specs::Read::read_memory, rules::specs::Read::read_staged_pages, rules::specs::Read::read_staged_marks, rules::specs::Read::read_staged_blocks, rules::specs::Read::read_reply_bytes))]
pub fn read(
    s: Standby,
    bytes: &[u8],
    memory: &mut [u8],
    pages: &mut [u8],
    marks: &mut [u64],
    blocks: &mut [u8],
    reply: &mut [u8],
) -> ReadReply<Standby>
    ensures value { result ≡ read_reply s (read_lent memory.old pages.old marks.old blocks.old reply.old) bytes.now }
    ensures memory_after { memory.new ≡ read_memory s (read_lent memory.old pages.old marks.old blocks.old reply.old) bytes.now memory.old pages.old marks.old }
    ensures pages_after { pages.new ≡ read_staged_pages s (read_lent memory.old pages.old marks.old blocks.old reply.old) bytes.now pages.old }
    ensures marks_after { marks.new ≡ read_staged_marks s (read_lent memory.old pages.old marks.old blocks.old reply.old) bytes.now marks.old }
    ensures blocks_after { blocks.new ≡ read_staged_blocks s (read_lent memory.old pages.old marks.old blocks.old reply.old) bytes.now blocks.old }
    ensures reply_after { reply.new ≡ read_reply_bytes s (read_lent memory.old pages.old marks.old blocks.old reply.old) bytes.now reply.old }
    ensures answered { Answered (judged s (read_lent memory.old pages.old marks.old blocks.old reply.old) bytes.now) result.answer }
{
    let lent = ReadLent {
        memory: memory.len(),
        pages: pages.len(),
        marks: marks.len(),
        blocks: blocks.len(),
        reply: reply.len(),
    };
    let r = judge::judged(s, lent, bytes);
    let slot = effects::slot_of(s, r);
    let state = effects::read_state(s, bytes, r, slot);
    effects::apply(s, bytes, memory, pages, marks, blocks, reply, r, slot);
    ReadReply {
        state,
        answer: replies::answer_of(r),
    }
}
