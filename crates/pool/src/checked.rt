// A pool that was checked: every row keeps its rules. It has the fields of a `Pool` itself, so that a row is read as there.
ghost use Rattle.std.specs.Prelude.{◌≡◌, ◌<◌};
ghost use Rattle.pool.specs.Areas.{over};
ghost use Rattle.pool.specs.Sound.{Sound};

use crate::names::Names;
use crate::words::Words;

#[derive(Clone, Copy)]
pub struct CheckedPool<'a> {
    pub bytes: &'a [u8],
    pub names: Names<'a>,
    pub words: Words<'a>,
    ghost sound: { Sound (over bytes.now names.words.now words.words.now) },
}
