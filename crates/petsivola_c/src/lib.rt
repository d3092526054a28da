//! The fifteen calls of include/petsivola.h: each is the call of the same name in the crate petsivola, with its promises. A slice is a
//! pointer and a length. The contracts stand here again: it is these that C's calls keep.
#![tactic(auto)]

ghost use Rattle.std.specs.Prelude.{◌≡◌};
ghost use Rattle.field.specs.Answers.{product_reply};
ghost use Rattle.checknode.specs.Answers.{check_reply, check_leaves};
ghost use Rattle.expansion.specs.Answers.{expand_reply, expand_leaves};
ghost use Rattle.display.specs.Answers.{display_reply, display_leaves};
ghost use Rattle.machine.specs.CodeLine.{parse};
ghost use Rattle.machine.specs.Line.{line_reply, line_leaves};
ghost use Rattle.codeline.specs.Answers.{summary_of, Tells};
ghost use Rattle.machine.specs.Decoding.{lending, decoding};
ghost use Rattle.machine.specs.Early.{decoding_early};
ghost use Rattle.machine.specs.Encoding.{encoding};
ghost use Rattle.machine.specs.Combining.{combining};
ghost use Rattle.trellis.specs.Lists.{pick};
ghost use Rattle.window.specs.Window.{read, interrupt, write};
ghost use Rattle.window.specs.Meaning.{bytes_of, window_of};
ghost use Rattle.channels.specs.Channels.{channels};
ghost use Rattle.channels.specs.Answers.{Gives};
ghost use Rattle.petsivola.specs.Packed.{Packs};

use channels::answers::Served;
use codeline::answers::Summary;
use window::registers::Registers;

#[unsafe(no_mangle)]
pub extern "C" fn petsivola_product(p: u8, a: u8, b: u8) -> u32
    ensures { Packs result (product_reply p a b) }
{
    petsivola::petsivola_product(p, a, b)
}

#[unsafe(no_mangle)]
pub extern "C" fn petsivola_check(first: u8, weights: &[u8], costs: &[u8], out: &mut [u8]) -> u32
    ensures reply { Packs result (check_reply first weights.now costs.now out.old) }
    ensures out_then { out.new ≡ check_leaves first weights.now costs.now out.old }
{
    petsivola::petsivola_check(first, weights, costs, out)
}

#[unsafe(no_mangle)]
pub extern "C" fn petsivola_sweep(first: u8, weights: &[u8], costs: &[u8], out: &mut [u8]) -> u32
    ensures reply { Packs result (check_reply first weights.now costs.now out.old) }
    ensures out_then { out.new ≡ check_leaves first weights.now costs.now out.old }
{
    petsivola::petsivola_sweep(first, weights, costs, out)
}

#[unsafe(no_mangle)]
pub extern "C" fn petsivola_expand(first: u8, weights: &[u8], bytes: &[u8], out: &mut [u8]) -> u32
    ensures reply { Packs result (expand_reply first weights.now bytes.now out.old) }
    ensures out_then { out.new ≡ expand_leaves first weights.now bytes.now out.old }
{
    petsivola::petsivola_expand(first, weights, bytes, out)
}

#[unsafe(no_mangle)]
pub extern "C" fn petsivola_display(first: u8, weights: &[u8], bytes: &[u8], out: &mut [u8]) -> u32
    ensures reply { Packs result (display_reply first weights.now bytes.now out.old) }
    ensures out_then { out.new ≡ display_leaves first weights.now bytes.now out.old }
{
    petsivola::petsivola_display(first, weights, bytes, out)
}

#[unsafe(no_mangle)]
pub extern "C" fn petsivola_line(text: &[u8], out: &mut [u8]) -> u32
    ensures reply { Packs result (line_reply text.now out.old) }
    ensures out_then { out.new ≡ line_leaves text.now out.old }
{
    petsivola::petsivola_line(text, out)
}

#[unsafe(no_mangle)]
pub extern "C" fn petsivola_code_line(code: &[u8]) -> Summary
    ensures { Tells (summary_of (parse code.now)) result }
{
    petsivola::petsivola_code_line(code)
}

#[unsafe(no_mangle)]
pub extern "C" fn petsivola_decode(
    code: &[u8],
    frame: &[u8],
    symbols: &mut [u8],
    costs: &mut [u16],
    store: &mut [u8],
    margins: &mut [u16],
) -> u32
    ensures reply { Packs result (decoding code.now frame.now
        (lending symbols.old costs.old store.old margins.old)).reply }
    ensures symbols_then { symbols.new
        ≡ (decoding code.now frame.now
        (lending symbols.old costs.old store.old margins.old)).buffers.symbols }
    ensures costs_then { costs.new
        ≡ (decoding code.now frame.now
        (lending symbols.old costs.old store.old margins.old)).buffers.costs }
    ensures store_then { store.new
        ≡ (decoding code.now frame.now
        (lending symbols.old costs.old store.old margins.old)).buffers.store }
    ensures margins_then { margins.new
        ≡ (decoding code.now frame.now
        (lending symbols.old costs.old store.old margins.old)).buffers.margins }
{
    petsivola::petsivola_decode(code, frame, symbols, costs, store, margins)
}

#[unsafe(no_mangle)]
pub extern "C" fn petsivola_decode_early(
    code: &[u8],
    frame: &[u8],
    symbols: &mut [u8],
    costs: &mut [u16],
    store: &mut [u8],
    margins: &mut [u16],
) -> u32
    ensures reply { Packs result (decoding_early code.now frame.now
        (lending symbols.old costs.old store.old margins.old)).reply }
    ensures symbols_then { symbols.new
        ≡ (decoding_early code.now frame.now
        (lending symbols.old costs.old store.old margins.old)).buffers.symbols }
    ensures costs_then { costs.new
        ≡ (decoding_early code.now frame.now
        (lending symbols.old costs.old store.old margins.old)).buffers.costs }
    ensures store_then { store.new
        ≡ (decoding_early code.now frame.now
        (lending symbols.old costs.old store.old margins.old)).buffers.store }
    ensures margins_then { margins.new
        ≡ (decoding_early code.now frame.now
        (lending symbols.old costs.old store.old margins.old)).buffers.margins }
{
    petsivola::petsivola_decode_early(code, frame, symbols, costs, store, margins)
}

#[unsafe(no_mangle)]
pub extern "C" fn petsivola_encode(code: &[u8], message: &[u8], symbols: &mut [u8]) -> u32
    ensures reply { Packs result (encoding code.now message.now symbols.old).reply }
    ensures symbols_then { symbols.new ≡ (encoding code.now message.now symbols.old).out }
{
    petsivola::petsivola_encode(code, message, symbols)
}

#[unsafe(no_mangle)]
pub extern "C" fn petsivola_window_write(
    window: Registers,
    address: u8,
    value: u8,
    code: &[u8],
    frame: &[u8],
    symbols: &mut [u8],
    costs: &mut [u16],
    store: &mut [u8],
    margins: &mut [u16],
) -> Registers
    ensures { window_of result (lending symbols.new costs.new store.new margins.new)
        ≡ write code.now frame.now address value
        (window_of window (lending symbols.old costs.old store.old margins.old)) }
{
    petsivola::petsivola_window_write(
        window, address, value, code, frame, symbols, costs, store, margins,
    )
}

#[unsafe(no_mangle)]
pub extern "C" fn petsivola_window_read(window: Registers, address: u8) -> u8
    ensures { result ≡ read (bytes_of window) address }
{
    petsivola::petsivola_window_read(window, address)
}

/// 1 where the interrupt is raised, else 0.
#[unsafe(no_mangle)]
pub extern "C" fn petsivola_window_interrupt(window: Registers) -> u8
    ensures { result ≡ pick (interrupt (bytes_of window)) 1 0 }
{
    petsivola::petsivola_window_interrupt(window)
}

#[unsafe(no_mangle)]
pub extern "C" fn petsivola_channels(
    count: u8,
    allowance: u32,
    code: &[u8],
    frames: &[u8],
    symbols: &mut [u8],
    costs: &mut [u16],
    store: &mut [u8],
    margins: &mut [u16],
) -> Served
    ensures { Gives (channels count allowance code.now frames.now
        (lending symbols.old costs.old store.old margins.old)) result.number result.spent
        result.status result.iterations (lending symbols.new costs.new store.new margins.new) }
{
    petsivola::petsivola_channels(
        count, allowance, code, frames, symbols, costs, store, margins,
    )
}

#[unsafe(no_mangle)]
pub extern "C" fn petsivola_combine(code: &[u8], first: &[u8], second: &[u8], out: &mut [u8]) -> u32
    ensures reply { Packs result (combining code.now first.now second.now out.old).reply }
    ensures out_then { out.new
        ≡ (combining code.now first.now second.now out.old).out }
{
    petsivola::petsivola_combine(code, first, second, out)
}
