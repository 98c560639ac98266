// The frame TXSQ: writing and correcting.
ghost use Rattle.c_rows.specs.Txsq.{record_of};
ghost use Rattle.txsq.specs.Txsq.{txsqs, values_of};
ghost use Rattle.format.specs.Promises.{Writes, Corrects, Packs};

use format::packed;
use txsq::Txsq;

// Writes the frame of these numbers and content into the front of a lent buffer.
#[unsafe(no_mangle)]
pub extern "C" fn bellnewt_txsq_write(
    buf: &mut [u8],
    content: &[u8],
    address: u32,
    category: u8,
    mode: u8,
    password: u8,
    receiver: u32,
    size: u16,
    answer: u8,
) -> u32
    ensures { Packs (λ refusal. Writes txsqs buf.old refusal buf.new (values_of (record_of address category mode password receiver size answer, content.now))) result }
{
    let r = Txsq {
        address,
        category,
        mode,
        password,
        receiver,
        size,
        answer,
    };
    packed(txsq::write(buf, r, content))
}

// Makes field number `field` of the frame be `value`, or leaves every byte.
#[unsafe(no_mangle)]
pub extern "C" fn bellnewt_txsq_correct(s: &mut [u8], field: usize, value: u64) -> u32
    ensures { Packs (λ refusal. Corrects txsqs s.old field value refusal s.new) result }
{
    packed(txsq::correct(s, field, value))
}
