// The frame TXXX: writing and correcting.
ghost use Rattle.c_rows.specs.Txxx.{record_of};
ghost use Rattle.txxx.specs.Txxx.{txxxs, values_of};
ghost use Rattle.format.specs.Promises.{Writes, Corrects, Packs};

use format::packed;
use txxx::Txxx;

// Writes the frame of these numbers and content into the front of a lent buffer.
#[unsafe(no_mangle)]
pub extern "C" fn bellnewt_txxx_write(
    buf: &mut [u8],
    content: &[u8],
    address: u32,
    class: u8,
    sender: u32,
    hour: u8,
    minute: u8,
    size: u16,
    mark: u8,
) -> u32
    ensures { Packs (λ refusal. Writes txxxs buf.old refusal buf.new (values_of (record_of address class sender hour minute size mark, content.now))) result }
{
    let r = Txxx {
        address,
        class,
        sender,
        hour,
        minute,
        size,
        mark,
    };
    packed(txxx::write(buf, r, content))
}

// Makes field number `field` of the frame be `value`, or leaves every byte.
#[unsafe(no_mangle)]
pub extern "C" fn bellnewt_txxx_correct(s: &mut [u8], field: usize, value: u64) -> u32
    ensures { Packs (λ refusal. Corrects txxxs s.old field value refusal s.new) result }
{
    packed(txxx::correct(s, field, value))
}
