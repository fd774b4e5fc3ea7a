//! What leaves takes its links along: the links to it are gone, and their words are 0 where their holder stays; and the links
//! whose words lie in it are gone.
ghost use Rattle.std.specs.Prelude.{◌≡◌, ◌≤◌, [], filter, length};
ghost use Rattle.words.specs.declared.limits.TheConstants.{MAX_LINKS};
ghost use Rattle.links.specs.Leaving.{ClearsWords, stays_with};
ghost use Rattle.plain_heap.specs.Along.{ClearsWord, holds_word, has_base};

use crate::directory::Directory;
use crate::owners::word_index;
use arrayvec::ArrayVec;
use links::{Link, Links};
use words::limits::MAX_LINKS;

const MOST: usize = MAX_LINKS as usize;

// Whether a link stays. Where its holder does and the object that it names doesn't, its word becomes 0.
fn keep_link(words: &mut [u64], directory: &Directory, link: Link) -> bool
    requires { length words.old ≡ length directory.now.owners.items }
    ensures stays { result ≡ stays_with (holds_word directory.now.objects.items) (has_base directory.now.objects.items) link }
    ensures words { ClearsWord directory.now.origin directory.now.objects.items link words.old words.new }
{
    if !directory.has_word(link.address) {
        return false;
    }
    if directory.has_base(link.base) {
        return true;
    }
    let position = word_index(directory.origin, link.address);
    words[position] = 0;
    false
}

// The same of some links, and copies those that stay.
fn keep_links(
    words: &mut [u64],
    directory: &Directory,
    row: &[Link],
    into: &mut ArrayVec<Link, MOST>,
)
    requires words { length words.old ≡ length directory.now.owners.items }
    requires empty { into.old.items ≡ [] }
    requires few { length row.now ≤ MAX_LINKS }
    ensures links { into.new.items ≡ filter (stays_with (holds_word directory.now.objects.items) (has_base directory.now.objects.items)) row.now }
    ensures words { ClearsWords directory.now.origin (holds_word directory.now.objects.items) (has_base directory.now.objects.items) row.now words.old words.new }
{
    for link in row {
        if keep_link(words, directory, *link) {
            into.push(*link);
        }
    }
}

// Takes the links along with the objects that have left: the directory has those that stay.
pub(crate) fn take_along(words: &mut [u64], directory: &Directory, links: &mut Links)
    requires { length words.old ≡ length directory.now.owners.items }
    ensures links { links.new ≡ filter (stays_with (holds_word directory.now.objects.items) (has_base directory.now.objects.items)) links.old }
    ensures words { ClearsWords directory.now.origin (holds_word directory.now.objects.items) (has_base directory.now.objects.items) links.old words.old words.new }
{
    let mut kept = ArrayVec::new();
    keep_links(words, directory, links.as_slice(), &mut kept);
    links.keep(kept);
}
