//! What leaves takes its links along: the links to it are gone, and their words are 0 where their holder stays; and the
//! links whose words lie in it are gone.
ghost use Rattle.std.specs.Prelude.{◌≡◌, ◌≤◌, [], ◌%◌, filter, length};
ghost use Rattle.words.specs.declared.limits.TheConstants.{MAX_LINKS, WORD_BYTES};
ghost use Rattle.links.specs.Rows.{IsAlignedRow};
ghost use Rattle.block_map.specs.FoundIn.{IsLawful};
ghost use Rattle.object_space.specs.Kept.{kept_in};
ghost use Rattle.object_space.specs.Along.{ClearsWords, TakesAlong, stays, is_base_of};

use super::ObjectSpace;
use arrayvec::ArrayVec;
use links::{Link, Links};
use marker::Marker;
use words::limits::MAX_LINKS;

const MOST: usize = MAX_LINKS as usize;

impl ObjectSpace {
    // Whether a kept object has the base.
    fn has_base(&self, marker: &Marker, base: u64) -> bool
        requires pages { length marker.now.dirty ≡ length self.now.states }
        ensures { result ≡ is_base_of (kept_in self.now.states self.now.pending marker.now.marks) base }
    {
        let Some(found) = self.find(marker, base) else {
            return false;
        };
        found.base == base
    }

    // Whether a link stays. Where its holder does and the object that it names doesn't, its word becomes 0.
    fn keep_link(&mut self, marker: &Marker, link: Link) -> bool
        requires pages { length marker.now.dirty ≡ length self.old.states }
        requires aligned { link.address % WORD_BYTES ≡ 0 }
        ensures stays { result ≡ stays (kept_in self.old.states self.old.pending marker.now.marks) link }
        ensures words { ClearsWords (kept_in self.old.states self.old.pending marker.now.marks) link self.old self.new }
    {
        let Some(_) = self.find(marker, link.address) else {
            return false;
        };
        if self.has_base(marker, link.base) {
            return true;
        }
        self.write(link.address, 0);
        false
    }

    // The same of some links, and copies those that stay.
    fn keep_links(&mut self, marker: &Marker, row: &[Link], into: &mut ArrayVec<Link, MOST>)
        requires pages { length marker.now.dirty ≡ length self.old.states }
        requires empty { into.old.items ≡ [] }
        requires few { length row.now ≤ MAX_LINKS }
        requires aligned { IsAlignedRow row.now }
        ensures links { into.new.items ≡ filter (stays (kept_in self.old.states self.old.pending marker.now.marks)) row.now }
        ensures along { TakesAlong (kept_in self.old.states self.old.pending marker.now.marks) row.now self.old self.new }
    {
        for link in row {
            if self.keep_link(marker, *link) {
                into.push(*link);
            }
        }
    }

    /// Takes the links along with the objects that have left: each link whose holder or whose named object isn't kept goes,
    /// and its word becomes 0 if its holder is kept. Where no link stands this is one test.
    #[inline]
    pub fn take_along(&mut self, marker: &Marker, links: &mut Links)
        requires pages { length marker.now.dirty ≡ length self.old.states }
        ensures links { links.new ≡ filter (stays (kept_in self.old.states self.old.pending marker.now.marks)) links.old }
        ensures along { TakesAlong (kept_in self.old.states self.old.pending marker.now.marks) links.old self.old self.new }
        ensures lawful { IsLawful self.old.states }
    {
        self.table.map.laws();
        if links.is_empty() {
            return;
        }
        self.take_links_along(marker, links);
    }

    // The same where some stand.
    #[inline(never)]
    fn take_links_along(&mut self, marker: &Marker, links: &mut Links)
        requires pages { length marker.now.dirty ≡ length self.old.states }
        ensures links { links.new ≡ filter (stays (kept_in self.old.states self.old.pending marker.now.marks)) links.old }
        ensures along { TakesAlong (kept_in self.old.states self.old.pending marker.now.marks) links.old self.old self.new }
    {
        let mut kept = ArrayVec::new();
        self.keep_links(marker, links.as_slice(), &mut kept);
        links.keep(kept);
    }
}
