use crate::block::Block;
use crate::failed::Failed;
use crate::file_block::FileBlock;
use crate::mem_block::MemBlock;
use vfs_base::Counts;

/// A block device in memory or over a part of a file.
#[derive(Drop)]
pub enum AnyBlock {
    Mem(MemBlock),
    File(FileBlock),
}

impl Block for AnyBlock {
    ghost use Rattle.vfs_outside.specs.AnyBlock.{pages_of, contents_of, counts_of};

    ghost pages = { pages_of };

    ghost contents = { contents_of };

    ghost counts = { counts_of };

    fn pages(&self) -> u16 {
        match self {
            AnyBlock::Mem(block) => block.pages(),
            AnyBlock::File(block) => block.pages(),
        }
    }

    fn counts(&self) -> Counts {
        match self {
            AnyBlock::Mem(block) => block.counts(),
            AnyBlock::File(block) => block.counts(),
        }
    }

    fn read_page(&mut self, page: u16, out: &mut [u8]) -> Result<(), Failed> {
        match self {
            AnyBlock::Mem(block) => block.read_page(page, out),
            AnyBlock::File(block) => block.read_page(page, out),
        }
    }

    fn write_page(&mut self, page: u16, bytes: &[u8]) -> Result<(), Failed> {
        match self {
            AnyBlock::Mem(block) => block.write_page(page, bytes),
            AnyBlock::File(block) => block.write_page(page, bytes),
        }
    }
}
