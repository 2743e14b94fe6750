ghost use Rattle.blocks.specs.Kinds.{scheme_of};
ghost use Rattle.masks.specs.Laws.{mask_lawful};
ghost use Rattle.ladders.specs.Laws.{ladder_lawful};
ghost use Rattle.hierarchies.specs.Laws.{hierarchy_lawful};
ghost use Rattle.pairs.specs.Laws.{pair_lawful};
ghost use Rattle.blocks.specs.declared.block.Block.TheVariants.{Mask, Ladder, Hierarchy, Ranked};

use crate::block::Block;
use roles::scheme::Scheme;

impl Scheme for Block {
    ghost meaning = { scheme_of };

    ghost lawful = { elim [
      | Mask m ↦ mask_lawful m.width
      | Ladder l ↦ ladder_lawful l.top
      | Hierarchy h ↦ hierarchy_lawful h.count h.rows
      | Ranked p ↦ pair_lawful _ _ (hierarchy_lawful p.first.count p.first.rows) (ladder_lawful p.second.top)
    ] };

    // Stays: a match for each question. No form is plainer: a method may not hand out a `dyn Scheme`, and one closure cannot be given four types.
    fn sound(&self) -> bool {
        match self {
            Block::Mask(s) => s.sound(),
            Block::Ladder(s) => s.sound(),
            Block::Hierarchy(s) => s.sound(),
            Block::Ranked(s) => s.sound(),
        }
    }

    fn width(&self) -> u32 {
        match self {
            Block::Mask(s) => s.width(),
            Block::Ladder(s) => s.width(),
            Block::Hierarchy(s) => s.width(),
            Block::Ranked(s) => s.width(),
        }
    }

    fn is_role(&self, code: u64) -> bool {
        match self {
            Block::Mask(s) => s.is_role(code),
            Block::Ladder(s) => s.is_role(code),
            Block::Hierarchy(s) => s.is_role(code),
            Block::Ranked(s) => s.is_role(code),
        }
    }

    fn dominates(&self, a: u64, b: u64) -> bool {
        match self {
            Block::Mask(s) => s.dominates(a, b),
            Block::Ladder(s) => s.dominates(a, b),
            Block::Hierarchy(s) => s.dominates(a, b),
            Block::Ranked(s) => s.dominates(a, b),
        }
    }

    fn join(&self, a: u64, b: u64) -> Option<u64> {
        match self {
            Block::Mask(s) => s.join(a, b),
            Block::Ladder(s) => s.join(a, b),
            Block::Hierarchy(s) => s.join(a, b),
            Block::Ranked(s) => s.join(a, b),
        }
    }

    fn meet(&self, a: u64, b: u64) -> Option<u64> {
        match self {
            Block::Mask(s) => s.meet(a, b),
            Block::Ladder(s) => s.meet(a, b),
            Block::Hierarchy(s) => s.meet(a, b),
            Block::Ranked(s) => s.meet(a, b),
        }
    }

    fn remainder(&self, b: u64, a: u64) -> Option<u64> {
        match self {
            Block::Mask(s) => s.remainder(b, a),
            Block::Ladder(s) => s.remainder(b, a),
            Block::Hierarchy(s) => s.remainder(b, a),
            Block::Ranked(s) => s.remainder(b, a),
        }
    }

    fn bottom(&self) -> u64 {
        match self {
            Block::Mask(s) => s.bottom(),
            Block::Ladder(s) => s.bottom(),
            Block::Hierarchy(s) => s.bottom(),
            Block::Ranked(s) => s.bottom(),
        }
    }
}
