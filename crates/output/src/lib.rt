// Lent bytes, filled from the front: what the writer of streams and the printers of text put their bytes into.
#![tactic(auto)]

ghost use Rattle.std.specs.Prelude.{◌≡◌, ◌+◌, [], ◌∷◌, take};
ghost use Rattle.limits.specs.Limits.{usize_end};
ghost use Rattle.word.specs.Word.{word_bytes, int_bytes};
ghost use Rattle.output.specs.Prints.{output_end};
ghost use Rattle.output.specs.Writes.{Writes, content, with_bytes};

/// Lent bytes, and the place up to which they are written. A byte past their end is counted and stored nowhere, and
/// nothing goes past the limit, so that no place can wrap. A writer of its own: by what it counts past their end a
/// stream's length is made out, and the product takes no memory for a `Vec` to write to.
#[derive(Drop)]
pub struct Output<'a> {
    pub bytes: &'a mut [u8],
    pub at: usize,
    pub limit: usize,
}

// The place that no text goes past.
const OUTPUT_END: usize = 4294967296;

// Stores bytes one by one, where the limit or the end of the lent ones falls among them: the place after them. Its
// figures come one by one, since an output that is lent out of line is kept in memory.
#[inline(never)]
#[tactic(auto, using(crate::specs::Laws::Writes::writing), unfolding(crate::specs::Writes::with_byte))]
fn store_each(out: &mut [u8], at: usize, limit: usize, bytes: &[u8]) -> usize
    ensures { content out.new result limit ≡ with_bytes (content out.old at limit) bytes.now }
{
    let mut next = at;
    for b in bytes {
        if next < limit {
            word::put(out, next, *b);
            next += 1;
        }
    }
    next
}

impl<'a> Output<'a> {
    /// For a text, of which nothing is put out yet.
    pub fn new(bytes: &'a mut [u8]) -> Output<'a>
        ensures same { result.bytes.ghost_name ≡ bytes.entry.ghost_name }
        ensures bytes { result.bytes.now ≡ bytes.old }
        ensures start { result.at ≡ 0 }
        ensures limit { result.limit ≡ output_end }
    {
        Output {
            bytes,
            at: 0,
            limit: OUTPUT_END,
        }
    }

    /// For records: they may stand at every place.
    pub fn for_records(bytes: &'a mut [u8]) -> Output<'a>
        ensures same { result.bytes.ghost_name ≡ bytes.entry.ghost_name }
        ensures bytes { result.bytes.now ≡ bytes.old }
        ensures start { result.at ≡ 0 }
        ensures limit { result.limit + 1 ≡ usize_end }
    {
        Output {
            limit: usize::MAX,
            ..Output::new(bytes)
        }
    }

    /// What is put out so far, as far as there is room for it.
    pub fn written(&self) -> &[u8]
        ensures { result.now ≡ take self.now.at self.now.bytes.now }
    {
        &self.bytes[..self.at.min(self.bytes.len())]
    }

    #[inline(always)]
    #[tactic(auto, using(crate::specs::Laws::Writes::byte_by_byte), unfolding(crate::specs::Writes::with_byte))]
    pub fn put_byte(&mut self, b: u8)
        ensures { Writes self.old self.new (b ∷ []) }
    {
        if self.at < self.limit {
            word::put(self.bytes, self.at, b);
            self.at += 1;
        }
    }

    // One test for all of them where they are stored whole, or all past the end: byte by byte a stream takes three
    // times as many instructions.
    #[inline(always)]
    pub fn put_bytes(&mut self, bytes: &[u8])
        ensures { Writes self.old self.new bytes.now }
    {
        if self.limit.saturating_sub(self.at) < bytes.len() {
            self.at = store_each(self.bytes, self.at, self.limit, bytes);
            return;
        }
        let end = self.at + bytes.len();
        if end <= self.bytes.len() {
            self.bytes[self.at..end].copy_from_slice(bytes);
            self.at = end;
        } else if self.bytes.len() <= self.at {
            self.at = end;
        } else {
            self.at = store_each(self.bytes, self.at, self.limit, bytes);
        }
    }

    pub fn put_str(&mut self, text: &str)
        ensures { Writes self.old self.new text.now }
    {
        self.put_bytes(text.as_bytes());
    }

    /// Least byte first.
    #[inline(always)]
    #[tactic(auto, unfolding(word::specs::Word::word_bytes))]
    pub fn put_u32(&mut self, u: u32)
        ensures { Writes self.old self.new (word_bytes u) }
    {
        self.put_bytes(&u.to_le_bytes());
    }

    #[inline(always)]
    #[tactic(auto, unfolding(word::specs::Word::int_bytes, word::specs::Word::word_bytes))]
    pub fn put_i32(&mut self, v: i32)
        ensures { Writes self.old self.new (int_bytes v) }
    {
        self.put_bytes(&v.to_le_bytes());
    }
}
