//! The nets.

ghost use Rattle.std.specs.Prelude.{◌≡◌, ◌++◌, ◌<◌, ◌≤◌, ◌^◌, IfOk, flat_map};
ghost use Rattle.fp_gen.specs.MakeText.{made_conn, made_conns, made_net, made_first};
ghost use Rattle.fp_gen.specs.Written.{Adds, conn_text, net_text};

use crate::lines::{push_numbered, push_text};
use rand_core::utils::NextWord;
use rand_pcg::Pcg32;
use std::alloc::AllocError;

/// The most cells, and as many nets.
const CELLS: u32 = 100_000;

/// Adds a pin of a cell near a net's number.
fn push_conn(text: &mut Vec<u8>, words: &mut Pcg32, cells: u32, net: u32) -> Result<(), AllocError>
    requires some { 1 ≤ cells }
    requires few { net < 100000 }
    ensures text { IfOk result (λ _. Adds (conn_text (made_conn cells net 0 words.old).0) text.old.items text.new.items) }
    ensures words { IfOk result (λ _. words.new ≡ (made_conn cells net 0 words.old).1) }
{
    let word = words.next_word();
    push_numbered(text, b"Pin C", (net + word % 16) % cells)?;
    push_numbered(text, b"/P", word / 16 % 4)?;
    push_text(text, b"\n")
}

/// Adds so many pins of cells near a net's number.
fn push_conns(
    text: &mut Vec<u8>,
    words: &mut Pcg32,
    cells: u32,
    net: u32,
    pins: u32,
) -> Result<(), AllocError>
    requires some { 1 ≤ cells }
    requires few { net < 100000 }
    ensures text { IfOk result (λ _. Adds (flat_map conn_text (made_first (made_conn cells net) pins words.old).0) text.old.items text.new.items) }
    ensures words { IfOk result (λ _. words.new ≡ (made_first (made_conn cells net) pins words.old).1) }
{
    for _ in 0..pins {
        push_conn(text, words, cells, net)?;
    }
    Ok(())
}

/// Adds a net with its pins.
fn push_net(text: &mut Vec<u8>, words: &mut Pcg32, cells: u32, net: u32) -> Result<(), AllocError>
    requires some { 1 ≤ cells }
    requires few { net < 100000 }
    ensures text { IfOk result (λ _. Adds (net_text (made_net cells net words.old).0) text.old.items text.new.items) }
    ensures words { IfOk result (λ _. words.new ≡ (made_net cells net words.old).1) }
{
    let pins = 2 + words.next_word() % 3;
    push_numbered(text, b"Net N", net)?;
    push_numbered(text, b" ", pins)?;
    push_text(text, b"\n")?;
    push_conns(text, words, cells, net, pins)
}

/// Adds as many nets as cells.
pub fn push_nets(text: &mut Vec<u8>, words: &mut Pcg32, cells: u32) -> Result<(), AllocError>
    requires few { cells ≤ 100000 }
    ensures text { IfOk result (λ _. Adds (flat_map net_text (made_first (made_net cells) cells words.old).0) text.old.items text.new.items) }
    ensures words { IfOk result (λ _. words.new ≡ (made_first (made_net cells) cells words.old).1) }
{
    for net in 0..cells {
        push_net(text, words, cells, net)?;
    }
    Ok(())
}
