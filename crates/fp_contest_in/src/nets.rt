//! Reading the nets into a builder.

ghost use Rattle.std.specs.Prelude.{◌≡◌, ◌<◌, ◌≤◌, ◌+◌, ◌-◌, ◌^◌, [], length, IfOk};
ghost use Rattle.std.specs.Option.{option_map};
ghost use Rattle.fp_text.specs.Reading.{number_next, many_next};
ghost use Rattle.fp_tech.specs.Book.{is_among};
ghost use Rattle.fp_netlist.specs.Netlist.{with_net};
ghost use Rattle.fp_contest_in.specs.Text.{with_conn_text, with_conn_texts, with_net_text, with_net_texts};
ghost use Rattle.fp_contest_in.specs.Statements.{cut_at_slash, path_of, net_pin_next, net_next, nets_next};
ghost use Rattle.fp_contest_in.specs.Grammar.{most_conns};
ghost use Rattle.fp_contest_in.specs.Given.{GivesNew, GivesCount};
ghost use Rattle.fp_contest_in.specs.Growing.{Grows, conn_item, net_item};

use crate::steps::{fault_behind, number, wrong};
use fp_base::NetId;
use fp_netlist::ProblemBuilder;
use fp_tech::BuildFault;
use fp_text::{Kind, TextFault, Tokens, Word, is_name};

/// The most nets.
const NETS: u32 = 1 << 18;

/// The most connections of all nets.
const CONNS: u32 = 1 << 21;

/// What stands before the last `/` of a token and behind it, if there is one.
fn cut_at_slash(token: &[u8]) -> Option<(&[u8], &[u8])>
    ensures { option_map (λ path. (path.0.now, path.1.now)) result ≡ cut_at_slash token.now }
{
    let slash = token.iter().rposition(|&byte| byte == b'/')?;
    Some((&token[..slash], &token[slash + 1..]))
}

/// The names of an instance and of its pin in a token, which is cut at its last `/`. None where there is none, or a
/// part is no name.
#[tactic(auto, unfolding(crate::specs::Statements::path_of))]
fn path(token: &[u8]) -> Option<(&[u8], &[u8])>
    ensures { option_map (λ path. (path.0.now, path.1.now)) result ≡ path_of token.now }
{
    let (inst, pin) = cut_at_slash(token)?;
    if is_name(inst) && is_name(pin) {
        Some((inst, pin))
    } else {
        None
    }
}

/// Adds the next connection to a net: `Name` where its token is no path, else `Unknown` where there is no such cell, or
/// its library cell lacks the pin in the technology of either die.
#[tactic(auto, unfolding(crate::specs::Statements::net_pin_next))]
fn next_conn(
    builder: &mut ProblemBuilder,
    net: NetId,
    tokens: &mut Tokens<'_>,
) -> Result<(), TextFault>
    requires net { net.0 < length builder.old.nets }
    requires room { length builder.old.conns < 2 ^ 21 }
    ensures { Grows (with_conn_text net.0) result builder.old builder.new tokens.new (net_pin_next builder.old tokens.old) }
{
    tokens.keyword(b"Pin")?;
    let word = tokens.word()?;
    let (inst, pin) = path(word.text).ok_or(wrong(word.at, Kind::Name))?;
    let cell = builder
        .cell_named(inst)
        .ok_or(wrong(word.at, Kind::Unknown))?;
    match builder.connect(net, cell, pin) {
        Ok(_) => Ok(()),
        Err(BuildFault::Unknown) => Err(wrong(word.at, Kind::Unknown)),
        Err(BuildFault::Memory) => Err(TextFault::Memory),
        Err(_) => unreachable!(),
    }
}

/// Adds so many connections to a net.
fn conns(
    builder: &mut ProblemBuilder,
    net: NetId,
    count: u32,
    tokens: &mut Tokens<'_>,
) -> Result<(), TextFault>
    requires net { net.0 < length builder.old.nets }
    requires room { length builder.old.conns + count ≤ 2 ^ 21 }
    ensures { Grows (with_conn_texts net.0) result builder.old builder.new tokens.new
        (many_next (conn_item builder.old) count [] tokens.old) }
{
    for _ in 0..count {
        next_conn(builder, net, tokens)?;
    }
    Ok(())
}

/// Adds a net, or `Twice` at its name where it is there.
fn add_net(builder: &mut ProblemBuilder, name: Word<'_>) -> Result<NetId, TextFault>
    requires { length builder.old.nets < 2 ^ 18 }
    ensures new { GivesNew result name.entry.at (is_among name.entry.text.now builder.old.nets) builder.new
        (with_net builder.old name.entry.text.now) }
    ensures number { IfOk result (λ net. net.0 ≡ length builder.old.nets) }
{
    match builder.add_net(name.text) {
        Ok(net) => Ok(net),
        Err(BuildFault::Twice) => Err(wrong(name.at, Kind::Twice)),
        Err(BuildFault::Memory) => Err(TextFault::Memory),
        Err(_) => unreachable!(),
    }
}

/// The number of connections of a net of that name; `Limit` where they are with those of the nets before more than
/// 2^21. A name that is there is the first fault.
fn count_of(
    builder: &ProblemBuilder,
    name: Word<'_>,
    tokens: &mut Tokens<'_>,
) -> Result<u32, TextFault>
    ensures { GivesCount (length builder.now.conns) name.entry.at (is_among name.entry.text.now builder.now.nets) result tokens.new
        (number_next 0 (most_conns - length builder.now.conns) Kind.Limit tokens.old) }
{
    match number(tokens, 0, CONNS - builder.conns(), Kind::Limit) {
        Ok(count) => Ok(count),
        Err(fault) => {
            let there = builder.net_named(name.text).is_some();
            Err(fault_behind(name, there, fault))
        }
    }
}

/// Adds the next net with its connections. Its name is looked up where it is added, or where the number does not read.
#[tactic(auto, unfolding(crate::specs::Statements::net_next, crate::specs::Statements::new_name_next))]
fn next_net(builder: &mut ProblemBuilder, tokens: &mut Tokens<'_>) -> Result<(), TextFault>
    requires { length builder.old.nets < 2 ^ 18 }
    ensures { Grows with_net_text result builder.old builder.new tokens.new
        (net_next builder.old builder.old.nets (length builder.old.conns) tokens.old) }
{
    tokens.keyword(b"Net")?;
    let name = tokens.name()?;
    let count = count_of(builder, name, tokens)?;
    let net = add_net(builder, name)?;
    conns(builder, net, count, tokens)
}

/// Adds so many nets to a problem that has none.
fn many_nets(
    builder: &mut ProblemBuilder,
    count: u32,
    tokens: &mut Tokens<'_>,
) -> Result<(), TextFault>
    requires none { builder.old.nets ≡ [] }
    requires no_conns { builder.old.conns ≡ [] }
    requires few { count ≤ 2 ^ 18 }
    ensures { Grows with_net_texts result builder.old builder.new tokens.new
        (many_next (net_item builder.old) count [] tokens.old) }
{
    for _ in 0..count {
        next_net(builder, tokens)?;
    }
    Ok(())
}

/// Reads the nets into a problem that has none.
#[tactic(auto, unfolding(crate::specs::Statements::nets_next))]
pub fn nets(builder: &mut ProblemBuilder, tokens: &mut Tokens<'_>) -> Result<(), TextFault>
    requires none { builder.old.nets ≡ [] }
    requires no_conns { builder.old.conns ≡ [] }
    ensures { Grows with_net_texts result builder.old builder.new tokens.new (nets_next builder.old tokens.old) }
{
    tokens.keyword(b"NumNets")?;
    let count = number(tokens, 0, NETS, Kind::Limit)?;
    many_nets(builder, count, tokens)
}
