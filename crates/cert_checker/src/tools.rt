//! What the rows of a cover are found with.

ghost use Rattle.std.specs.Prelude.{IfOk};
ghost use Rattle.cert_checker.specs.StepRows.{AreToolsFor};

use epimorphism::Work;
use p_cover::{Cover, Images};
use pc_presentation::Scratch;
use plain_collector::Plain;
use pq_base::NoMemory;
use std::alloc::Global;
use std::marker::Model;

/// The plain collector with room for elements of a cover, and the images of the given generators there. Only `over` takes memory.
#[derive(Drop)]
pub(crate) struct Tools {
    pub(crate) scratch: Scratch<Plain>,
    pub(crate) work: Work,
    pub(crate) images: Images,
}

impl Model for Tools {
    ghost use Rattle.cert_checker.specs.StepRows.{ToolsOf};

    ghost Value = { ToolsOf };

    ghost view = { λ t. record { scratch = t.scratch; work = t.work; images = t.images } };
}

impl Tools {
    /// The tools for a cover.
    pub(crate) fn over(alloc: Global, cover: &Cover) -> Result<Tools, NoMemory>
        ensures { IfOk result (λ tools. AreToolsFor cover.now tools) }
    {
        let mut scratch = Scratch::new(alloc, cover.pcp())?;
        let images = Images::lift(alloc, &mut scratch, cover)?;
        Ok(Tools {
            scratch,
            work: Work::new(alloc, cover)?,
            images,
        })
    }
}
