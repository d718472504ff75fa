// The normal form of a checkpoint kept on file, for C. A library of its own: with one more reader of records in it, the
// compiler no longer inlines the reading in the standby's call of libcapi.a (docs/BENCHMARKS.md).
#![tactic(auto)]

ghost use Rattle.std.specs.Prelude.{◌≡◌, length};
ghost use Rattle.checkpoints.specs.Saving.{saved, saved_destination};
ghost use Rattle.files.specs.Saved.{file_settings, saved_answer, saved_word};

use capi::word::record_word;
use checkpoints::FileSettings;
use checkpoints::normal::normal_form;
use records::Unread;
use rules::Accepted;

// What writing a normal form answers, as the calls that read a record do: no bytes are used of a link.
fn saved_answer(s: Result<usize, Unread>) -> Result<Accepted, Unread>
    ensures { result ≡ saved_answer s }
{
    s.map(|length| Accepted {
        value: length as u64,
        used: 0,
    })
}

// A file, one checkpoint as it travelled, into its normal form at the head of the destination.
#[unsafe(no_mangle)]
pub extern "C" fn pair_normal_form(
    u: usize,
    m: usize,
    d: usize,
    b: usize,
    file: &[u8],
    destination: &mut [u8],
) -> u64
    ensures { (result ≡ saved_word (saved (file_settings u m d b) file.now (length destination.old))) × (destination.new ≡ saved_destination (file_settings u m d b) file.now destination.old) }
{
    let g = FileSettings { u, m, d, b };
    let s = normal_form(g, file, destination);
    record_word(saved_answer(s))
}
