// The frame TXHZ: writing and correcting.
ghost use Rattle.c_rows.specs.Txhz.{TxhzWrites};
ghost use Rattle.txhz.specs.Txhz.{txhzs};
ghost use Rattle.format.specs.Promises.{Corrects, Packs};

use format::packed;

// Writes the frame of these numbers and the 20 bytes of its receipts into the front of a lent buffer.
#[unsafe(no_mangle)]
pub extern "C" fn bellnewt_txhz_write(
    buf: &mut [u8],
    receipts: &[u8],
    address: u32,
    receiver: u32,
    count: u8,
) -> u32
    ensures { Packs (λ refusal. TxhzWrites buf.old receipts.now address receiver count refusal buf.new) result }
{
    packed(c_rows::txhzs::write(buf, receipts, address, receiver, count))
}

// Makes field number `field` of the frame be `value`, or leaves every byte.
#[unsafe(no_mangle)]
pub extern "C" fn bellnewt_txhz_correct(s: &mut [u8], field: usize, value: u64) -> u32
    ensures { Packs (λ refusal. Corrects txhzs s.old field value refusal s.new) result }
{
    packed(txhz::correct(s, field, value))
}
