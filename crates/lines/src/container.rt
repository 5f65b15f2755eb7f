// What is kept of an open list item, for the lines that follow it.

ghost use Rattle.std.specs.Prelude.{◌≡◌};
ghost use Rattle.lines.specs.Going.{cleared};
ghost use Rattle.lines.specs.Item.{mark_of};

// "Each container's record says whether it is bulleted or ordered, and by which mark."
#[derive(Clone, Copy)]
pub enum Kind {
    Bullet(u8),
    Ordered(u8),
}

impl Kind {
    // The mark's byte.
    pub fn mark(self) -> u8
        ensures { result ≡ mark_of self }
    {
        match self {
            Kind::Bullet(mark) | Kind::Ordered(mark) => mark,
        }
    }
}

// Its kind, the indentation that its further lines need, and whether it began with a blank rest and has had no filled line since.
#[derive(Clone, Copy)]
pub struct Container {
    pub kind: Kind,
    pub size: usize,
    pub blank: bool,
}

impl Container {
    // The same with the flag cleared.
    pub fn cleared(mut self) -> Container
        ensures { result ≡ cleared self }
    {
        self.blank = false;
        self
    }
}
