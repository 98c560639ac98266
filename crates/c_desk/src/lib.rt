// What C and Rust link of the desk: calls over lent bytes, each handed on to its own. Places are 67 bytes for each of four: the open mark (0 closed, 1 open), message number, language, total, and a size for each of 63 packets, 0 where it is not held. Each answers its refusal packed into one number: the code in the low 8 bits, the bit in the 24 above.
#![tactic(auto)]

ghost use Rattle.format.specs.Promises.{Packs};
ghost use Rattle.desk_bytes.specs.Promises.{AcceptsIn, AsksIn, DropsIn};

use format::packed;

// A packet comes in; `again` becomes 1 where it came before, 0 where it is new.
#[unsafe(no_mangle)]
pub extern "C" fn bellnewt_desk_accept(
    places: &mut [u8],
    store: &mut [u8],
    packet: &[u8],
    again: &mut u8,
) -> u32
    ensures { Packs (λ refusal. AcceptsIn places.old store.old packet.now again.old refusal places.new store.new again.new) result }
{
    packed(desk_bytes::accept(places, store, packet, again))
}

// Asks for the notice of that message number: its bytes into the front of `notice`, how many they are into `count`, and its
// language; or, with 9, the missing numbers into the front of `missing`, and how many they are into `count`.
#[unsafe(no_mangle)]
pub extern "C" fn bellnewt_desk_ask(
    places: &mut [u8],
    store: &[u8],
    number: u8,
    notice: &mut [u8],
    missing: &mut [u16],
    count: &mut usize,
    language: &mut u8,
) -> u32
    ensures { Packs (λ refusal. AsksIn places.old store.now number notice.old missing.old count.old language.old refusal places.new notice.new missing.new count.new language.new) result }
{
    packed(desk_bytes::ask(places, store, number, notice, missing, count, language))
}

// Drops the notice of that message number.
#[unsafe(no_mangle)]
pub extern "C" fn bellnewt_desk_drop(places: &mut [u8], store: &[u8], number: u8) -> u32
    ensures { Packs (λ refusal. DropsIn places.old store.now number refusal places.new) result }
{
    packed(desk_bytes::drop(places, store, number))
}
