//! Numbers that are named more than once.
ghost use Rattle.std.specs.Prelude.{◌≡◌, ℕ, not, nat_lt, IfOk};
ghost use Rattle.il_types.specs.declared.site.Site.{Site as SiteOf};
ghost use Rattle.il_types.specs.Prelude.{when, first, marked, times, first_repeated};

use crate::marks::{is_marked, mark};
use crate::site::Site;
use std::alloc::{AllocError, Global};

/// The line of the first place whose number is named by another one too.
pub fn repeated(alloc: Global, sites: &[Site]) -> Result<Option<usize>, AllocError>
    ensures { IfOk result (λ line. line ≡ first_repeated sites.now) }
{
    let again = named_again(alloc, sites)?;
    Ok(first_marked(sites, again.as_slice()))
}

/// The numbers that are named more than once.
fn named_again(alloc: Global, sites: &[Site]) -> Result<Vec<bool>, AllocError>
    ensures { IfOk result (λ marks. (n : ℕ) → marked marks.items n ≡ nat_lt 1 (times n sites.now)) }
{
    let mut once = Vec::with_capacity(alloc, sites.len())?;
    let mut again = Vec::new(alloc);
    for site in sites {
        if is_marked(once.as_slice(), site.number) {
            mark(&mut again, site.number)?;
        }
        mark(&mut once, site.number)?;
    }
    Ok(again)
}

/// The line of the first place whose number is marked.
pub fn first_marked(sites: &[Site], marks: &[bool]) -> Option<usize>
    ensures { result ≡ first (λ (s : SiteOf). when (marked marks.now s.number) s.line) sites.now }
{
    for site in sites {
        if is_marked(marks, site.number) {
            return Some(site.line);
        }
    }
    None
}

/// The line of the first place whose number isn't marked.
pub fn first_unmarked(sites: &[Site], marks: &[bool]) -> Option<usize>
    ensures { result ≡ first (λ (s : SiteOf). when (not (marked marks.now s.number)) s.line) sites.now }
{
    for site in sites {
        if !is_marked(marks, site.number) {
            return Some(site.line);
        }
    }
    None
}
