// A line, and how far it has been handed out.
ghost use Rattle.std.specs.Prelude.{◌≤◌, length};

#[derive(Clone, Copy)]
pub struct Reader<'a> {
    pub(crate) line: &'a [u8],
    pub(crate) at: usize,
    ghost within: { at ≤ length line.now },
}
