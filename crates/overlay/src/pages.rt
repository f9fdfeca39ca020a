// The tree of pages: what stands at a place of a page.
ghost use Rattle.std.specs.Prelude.{◌≡◌, ◌<◌, ◌^◌, IfOk, IfErr, OnOk, OnErr, None, Some, false};
ghost use Rattle.overlay.specs.Pages.{IsNumbered, Puts, has_page, stands};

use crate::page::Page;
use sector_core::Block;
use std::collections::BTreeMap;

// Puts a block at a place, and hands back what stood there. Only a block for a page that is absent can be refused,
// and then it comes back.
pub(crate) fn put_at(
    pages: &mut BTreeMap<u64, Page>,
    number: u64,
    at: usize,
    block: Block,
) -> Result<Option<Block>, Option<Block>>
    requires at { at < 8 }
    requires number { number < 2 ^ 61 }
    ensures new { OnOk result (Puts pages.old.entries pages.new.entries number at (Some block)) }
    ensures old { IfOk result (λ left. left ≡ stands pages.old.entries number at) }
    ensures err { OnErr result (pages.new.entries ≡ pages.old.entries) }
    ensures handed_back { IfErr result (λ back. back ≡ Some block) }
    ensures absent { OnErr result (has_page pages.old.entries number ≡ false) }
    ensures adds { OnErr result (stands pages.old.entries number at ≡ None) }
    ensures numbered { IsNumbered pages.old.entries → IsNumbered pages.new.entries }
{
    let Some(page) = pages.get_mut(&number) else {
        return match add_page(pages, number, at, block) {
            Ok(()) => Ok(None),
            Err(back) => Err(back),
        };
    };
    Ok(page.put(at, block))
}

// Adds a page with one block. Where there is no memory for it the block comes back. A page is wide, so it is not made
// ready where a block only takes the place of another.
#[inline(never)]
fn add_page(
    pages: &mut BTreeMap<u64, Page>,
    number: u64,
    at: usize,
    block: Block,
) -> Result<(), Option<Block>>
    requires at { at < 8 }
    requires number { number < 2 ^ 61 }
    requires absent { has_page pages.old.entries number ≡ false }
    ensures new { OnOk result (Puts pages.old.entries pages.new.entries number at (Some block)) }
    ensures err { OnErr result (pages.new.entries ≡ pages.old.entries) }
    ensures handed_back { IfErr result (λ back. back ≡ Some block) }
    ensures numbered { IsNumbered pages.old.entries → IsNumbered pages.new.entries }
{
    match pages.insert(number, Page::new(at, block)) {
        Ok(_) => Ok(()),
        Err(refused) => Err(refused.value.1.into_block(at)),
    }
}

// Takes out what stands at a place. The page goes with the last block that it has. It is apart for the width of a page on
// the stack, too.
#[inline(never)]
pub(crate) fn take_at(pages: &mut BTreeMap<u64, Page>, number: u64, at: usize) -> Option<Block>
    requires { at < 8 }
    ensures new { Puts pages.old.entries pages.new.entries number at None }
    ensures old { result ≡ stands pages.old.entries number at }
    ensures numbered { IsNumbered pages.old.entries → IsNumbered pages.new.entries }
{
    let Some(page) = pages.get_mut(&number) else {
        return None;
    };
    if page.has_other(at) {
        return page.take(at);
    }
    match pages.remove(&number) {
        Some(page) => page.into_block(at),
        None => None,
    }
}
