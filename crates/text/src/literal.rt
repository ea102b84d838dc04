// The literals of a constraint, in a line that others may stand in before them.
ghost use Rattle.std.specs.Prelude.{◌≡◌, cond, [], ◌∷◌, ◌^◌, ◌<◌, length, get_or};
ghost use Rattle.words.specs.Loop.{joined};
ghost use Rattle.scan.specs.Set.{most_reads, outs};
ghost use Rattle.scan.specs.Names.{name_bytes};
ghost use Rattle.text.specs.Grammar.{and_word};
ghost use Rattle.text.specs.Text.{state_word, rank_words, named_reads, several, spaced_words};
ghost use Rattle.text.specs.way.Page.{Put};
ghost use Rattle.text.specs.way.Place.{literal_if, literal_at, read_literals_by, output_literals_by};

use super::page::Page;
use choice::either;
use scan::{Constraint, MOST_READS, NAME_PLACES};
use words::{bit32, ones16};

// The read points that a constraint names.
fn named_reads(c: Constraint) -> u32
    ensures { result ≡ named_reads c }
{
    c.read_plain | c.read_negated
}

// The outputs that a constraint names.
fn named_outputs(c: Constraint) -> u32
    ensures { result ≡ outs c }
{
    c.out_plain as u32 | c.out_negated as u32
}

// Whether a constraint names several outputs.
fn names_several(c: Constraint) -> bool
    ensures { result ≡ several c }
{
    1 < ones16(c.out_plain | c.out_negated)
}

impl<'a> Page<'a> {
    // `and`, where others stand before.
    #[inline(always)]
    fn put_and(&mut self, others: bool)
        ensures { Put self.old (spaced_words (cond others (and_word ∷ []) [])) self.new }
    {
        if others {
            self.put_word(b"and");
        }
    }

    // `on` or `off`.
    #[inline(always)]
    fn put_state(&mut self, plain: bool)
        ensures { Put self.old (spaced_words (state_word plain ∷ [])) self.new }
    {
        if plain {
            self.put_word(b"on");
        } else {
            self.put_word(b"off");
        }
    }

    // The rank, where the constraint names several outputs or it is not 0.
    #[inline(always)]
    fn put_rank(&mut self, several: bool, rank: u8)
        ensures { Put self.old (spaced_words (rank_words several rank)) self.new }
    {
        if either(several, rank != 0) {
            self.put_word(b"rank");
            self.put_number(rank);
        }
    }

    // A literal: the name, its state, and its rank.
    #[inline(always)]
    fn put_literal(
        &mut self,
        there: bool,
        others: bool,
        names: &[[u8; NAME_PLACES]],
        k: usize,
        plain: bool,
        several: bool,
        rank: u8,
    )
        ensures { Put self.old (spaced_words (literal_if there others (name_bytes (get_or names.now k [])) plain several rank)) self.new }
    {
        if there {
            self.put_and(others);
            self.put_name_at(names, k);
            self.put_state(plain);
            self.put_rank(several, rank);
        }
    }

    // The literals of the points that are named, by number. They go onto a page of the function's own, so that its place stays in a register.
    #[inline(always)]
    fn put_literals(
        &mut self,
        begun: bool,
        names: &[[u8; NAME_PLACES]],
        plain: u32,
        named: u32,
        ranks: &[u8],
        several: bool,
    )
        ensures { Put self.old (spaced_words (joined (length ranks.now) (literal_at begun names.now plain named ranks.now several))) self.new }
    {
        let mut page = Page {
            buf: &mut *self.buf,
            at: self.at,
        };
        let mut others = begun;
        for k in 0..ranks.len() {
            let there = bit32(k, named);
            page.put_literal(there, others, names, k, bit32(k, plain), several, ranks[k]);
            others = either(others, there);
        }
        self.at = page.at;
    }

    // The literals of a constraint's read points.
    #[inline(always)]
    pub fn put_read_literals(&mut self, c: Constraint, names: &[[u8; NAME_PLACES]])
        ensures { Put self.old (spaced_words (read_literals_by names.now c)) self.new }
    {
        let unranked = [0u8; MOST_READS];
        let named = named_reads(c);
        self.put_literals(false, names, c.read_plain, named, &unranked, false);
    }

    // The literals of a constraint's outputs, behind those of its read points.
    #[inline(always)]
    pub fn put_output_literals(&mut self, c: Constraint, names: &[[u8; NAME_PLACES]])
        requires { named_reads c < 2 ^ most_reads }
        ensures { Put self.old (spaced_words (output_literals_by names.now c)) self.new }
    {
        let ranks = c.ranks;
        let others = 0 < named_reads(c);
        let named = named_outputs(c);
        let several = names_several(c);
        self.put_literals(others, names, c.out_plain as u32, named, &ranks, several);
    }
}
