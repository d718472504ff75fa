// What the link daemon, written in C, calls: numbers and bytes in, a number back.
#![tactic(auto)]

ghost use Rattle.std.specs.Prelude.{◌≡◌, length};
ghost use Rattle.records.specs.declared.Reader.TheVariants.{Test};
ghost use Rattle.records.specs.Read.{read_record};
ghost use Rattle.rules.specs.Choose.{choice_of};
ghost use Rattle.link.specs.Word.{choice_word, test_word};

use ends::choice::decide;
use records::reading::{kind_of, number_of, read, used_of};
use records::{Reader, Unread};
use rules::Disk;

// The record test: number + 256 * kind + 65,536 * used. Cut short, and nothing else, has low 16 bits of 0: it is 65,536
// * the bytes missing.
#[unsafe(no_mangle)]
pub extern "C" fn record_test(u: u64, bytes: &[u8]) -> u64
    ensures { result ≡ test_word (read_record Test u bytes.now) }
{
    let answer = read(Reader::Test, u as usize, bytes);
    match answer {
        Err(Unread::Short { missing }) => 65536 * (missing as u64),
        _ => number_of(answer) + 256 * kind_of(answer) + 65536 * (used_of(answer) as u64),
    }
}

// The disk choice: 256 for the primary's disk, 512 for the standby's, else 1 or 12.
#[unsafe(no_mangle)]
pub extern "C" fn disk_choice(primary: &[u8], standby: &[u8], area: &[u8]) -> u64
    ensures { result ≡ choice_word (choice_of (length primary.now) (length standby.now) area.now) }
{
    match decide(primary.len(), standby.len(), area) {
        Ok(Disk::PrimaryDisk) => 256,
        Ok(Disk::StandbyDisk) => 512,
        Err(refusal) => refusal.number(),
    }
}
