//! Reading the blockages.

ghost use Rattle.std.specs.Prelude.{◌≡◌, ◌≤◌, [], IfOk, length, All};
ghost use Rattle.fp_text.specs.Reading.{Gives, many_next};
ghost use Rattle.fp_tech.specs.declared.dies.Block.{Block};
ghost use Rattle.fp_tech.specs.Plan.{IsBlock};
ghost use Rattle.fp_contest_in.specs.Statements.{die_next, block_next, listed_blocks_next, blocks_next};
ghost use Rattle.fp_contest_in.specs.Growing.{block_item};

use crate::sections::frame;
use crate::steps::{number, wrong};
use fp_base::Die;
use fp_tech::Block;
use fp_text::{Kind, TextFault, Tokens};
use std::alloc::Global;

/// The blockages in file order, and the place of the keyword that counts them, 0 where there is none.
#[derive(Drop)]
pub struct ListedBlocks {
    pub at: u64,
    pub blocks: Vec<Block>,
}

#[tactic(auto, unfolding(crate::specs::Statements::die_next))]
fn die(tokens: &mut Tokens<'_>) -> Result<Die, TextFault>
    ensures { Gives (λ d. d) result tokens.new (die_next tokens.old) }
{
    let word = tokens.word()?;
    if word.text == b"Top".as_slice() {
        Ok(Die::Top)
    } else if word.text == b"Bottom".as_slice() {
        Ok(Die::Bottom)
    } else {
        Err(wrong(word.at, Kind::Word))
    }
}

#[tactic(auto, unfolding(crate::specs::Statements::block_next))]
fn block(tokens: &mut Tokens<'_>) -> Result<Block, TextFault>
    ensures gives { Gives (λ b. b) result tokens.new (block_next tokens.old) }
    ensures range { IfOk result IsBlock }
{
    tokens.keyword(b"Blockage")?;
    let die = die(tokens)?;
    let corners = frame(tokens)?;
    Ok(Block {
        die,
        llx: corners.llx,
        lly: corners.lly,
        urx: corners.urx,
        ury: corners.ury,
    })
}

/// So many blockages.
fn many_blocks(alloc: Global, count: u32, tokens: &mut Tokens<'_>) -> Result<Vec<Block>, TextFault>
    requires { count ≤ 1024 }
    ensures gives { Gives (λ blocks. blocks.items) result tokens.new (many_next block_item count [] tokens.old) }
    ensures few { IfOk result (λ blocks. length blocks.items ≤ 1024) }
    ensures range { IfOk result (λ blocks. All IsBlock blocks.items) }
{
    let mut blocks = Vec::with_capacity(alloc, count as usize)?;
    for _ in 0..count {
        let block = block(tokens)?;
        blocks.push(block)?;
    }
    Ok(blocks)
}

#[tactic(auto, unfolding(crate::specs::Statements::listed_blocks_next))]
fn listed_blocks(alloc: Global, tokens: &mut Tokens<'_>) -> Result<ListedBlocks, TextFault>
    ensures gives { Gives (λ b. (b.at, b.blocks.items)) result tokens.new (listed_blocks_next tokens.old) }
    ensures few { IfOk result (λ b. length b.blocks.items ≤ 1024) }
    ensures range { IfOk result (λ b. All IsBlock b.blocks.items) }
{
    let at = tokens.keyword(b"NumBlockages")?;
    let count = number(tokens, 0, 1024, Kind::Limit)?;
    let blocks = many_blocks(alloc, count, tokens)?;
    Ok(ListedBlocks { at, blocks })
}

/// The blockages, where the next token begins them, and none else.
#[tactic(auto, unfolding(crate::specs::Statements::blocks_next))]
pub fn blocks(alloc: Global, tokens: &mut Tokens<'_>) -> Result<ListedBlocks, TextFault>
    ensures gives { Gives (λ b. (b.at, b.blocks.items)) result tokens.new (blocks_next tokens.old) }
    ensures few { IfOk result (λ b. length b.blocks.items ≤ 1024) }
    ensures range { IfOk result (λ b. All IsBlock b.blocks.items) }
{
    if tokens.begins(b"NumBlockages") {
        listed_blocks(alloc, tokens)
    } else {
        Ok(ListedBlocks {
            at: 0,
            blocks: Vec::new(alloc),
        })
    }
}
