ghost use Rattle.std.specs.Prelude.{◌≡◌, ◌<◌, ◌^◌, ◌-◌, ◌+◌, ◌≤◌, [], ◌++◌, filter, nat_lt, option_to_list, IfNone, IfSome};
ghost use Rattle.std.specs.BTreeSet.{insert_key};
ghost use Rattle.std.specs.Ordering.{nat_cmp};
ghost use Rattle.vfs_model.specs.WrittenBack.{has_page};
ghost use Rattle.page_cache.specs.StoredSet.{pages_in};

// The bits of a word of a set.
const WORD_BITS: u16 = 64;

/// A set of pages below 1024: page p is bit p % 64 of word p / 64.
#[derive(Clone, Copy, Debug)]
pub(crate) struct PageSet {
    words: [u64; 16],
}

impl PageSet {
    pub(crate) fn new() -> PageSet
        ensures { pages_in result.words ≡ [] }
    {
        PageSet { words: [0; 16] }
    }

    pub(crate) fn from_words(words: [u64; 16]) -> PageSet
        ensures { result.words ≡ words }
    {
        PageSet { words }
    }

    pub(crate) fn words(&self) -> [u64; 16]
        ensures { result ≡ self.now.words }
    {
        self.words
    }

    /// Whether the page is in the set.
    pub(crate) fn contains(&self, page: u16) -> bool
        requires { page < 1024 }
        ensures { result ≡ has_page self.now.words page }
    {
        (self.words[usize::from(page / WORD_BITS)] >> (page % WORD_BITS)) & 1 == 1
    }

    /// The set with the page.
    pub(crate) fn insert(&mut self, page: u16)
        requires { page < 1024 }
        ensures { pages_in self.new.words ≡ insert_key nat_cmp (pages_in self.old.words) page }
    {
        self.words[usize::from(page / WORD_BITS)] |= 1 << (page % WORD_BITS);
    }

    /// The set without the pages from this one on.
    pub(crate) fn cut(&mut self, keep: u16)
        ensures { pages_in self.new.words ≡ filter (λ page. nat_lt page keep) (pages_in self.old.words) }
    {
        for place in 0..16 {
            let below = keep.saturating_sub(WORD_BITS * place).min(WORD_BITS);
            self.words[usize::from(place)] &= low_bits(below);
        }
    }

    /// Takes the least page out.
    pub(crate) fn pop_first(&mut self) -> Option<u16>
        ensures first { pages_in self.old.words ≡ option_to_list result ++ pages_in self.new.words }
        ensures within { IfSome result (λ page. page < 1024) }
        ensures none { IfNone result (pages_in self.old.words ≡ []) }
    {
        for place in 0..16 {
            let word = self.words[usize::from(place)];
            if word != 0 {
                let bit = word.trailing_zeros() as u16;
                self.words[usize::from(place)] &= !(1 << bit);
                return Some(WORD_BITS * place + bit);
            }
        }
        None
    }
}

// A word whose lowest bits, so many, are set.
fn low_bits(count: u16) -> u64
    requires { count ≤ 64 }
    ensures { result ≡ 2 ^ count - 1 }
{
    if count == WORD_BITS {
        u64::MAX
    } else {
        (1 << count) - 1
    }
}
