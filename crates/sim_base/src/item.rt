//! The layers that a packet is made of, outermost first.

ghost use Rattle.std.specs.Prelude.{◌≡◌, All};
ghost use Rattle.sim_base.specs.Items as parts;
ghost use Rattle.sim_base.specs.Kind.{same_kind};

/// What a part of a packet is.
#[derive(Clone, Copy, Debug, Default, PartialEq, Eq)]
pub enum Kind {
    Ppp,
    Ethernet,
    Trailer,
    Arp,
    Ipv4,
    Icmp,
    Udp,
    Tcp,
    #[default]
    Payload,
    Pad,
}

/// A part of a packet that was `size` bytes long, and from which `cut_front` and `cut_back` bytes have
/// been cut since.
#[derive(Clone, Copy, Debug, Default, PartialEq, Eq)]
pub struct Item {
    pub kind: Kind,
    pub size: u32,
    pub cut_front: u32,
    pub cut_back: u32,
}

impl Kind {
    /// Whether two kinds are the same.
    pub fn is(self, other: Kind) -> bool
        ensures { result ≡ same_kind self other }
    {
        self == other
    }
}

impl Item {
    /// A whole item of `size` bytes.
    pub fn whole(kind: Kind, size: u32) -> Item
        ensures { result ≡ parts.whole_item kind size }
    {
        Item {
            kind,
            size,
            cut_front: 0,
            cut_back: 0,
        }
    }

    /// How many bytes are left of the item.
    pub fn left(&self) -> u32
        ensures { result ≡ parts.left self.now }
    {
        self.size
            .saturating_sub(self.cut_front)
            .saturating_sub(self.cut_back)
    }

    /// Whether the item is whole, of this kind and of `size` bytes, and `size` is not 0.
    pub fn is_whole(&self, kind: Kind, size: u32) -> bool
        ensures { result ≡ parts.is_whole kind size self.now }
    {
        0 < size
            && self.kind.is(kind)
            && self.size == size
            && self.cut_front == 0
            && self.cut_back == 0
    }

    /// Whether the item `next` goes on inside this one's part exactly where this one ends.
    pub fn goes_on(&self, next: &Item) -> bool
        ensures { result ≡ parts.goes_on self.now next.now }
    {
        self.kind.is(next.kind)
            && self.size == next.size
            && self.size.saturating_sub(self.cut_back) == next.cut_front
    }

    /// The item with only its bytes from `from` up to `to` left.
    pub fn cut(self, from: u32, to: u32) -> Item
        requires { parts.IsLeft self }
        ensures { result ≡ parts.cut_item from to self }
    {
        let left = self.left();
        Item {
            cut_front: self.cut_front + from.min(left),
            cut_back: self.cut_back + left.saturating_sub(to),
            ..self
        }
    }

    /// Leaves of items that stand one behind the other the bytes from `from` up to `to`. An item may have
    /// no byte left.
    pub fn cut_all(items: &mut [Item], mut from: u32, mut to: u32)
        requires { All parts.IsLeft items.old }
        ensures { items.new ≡ parts.cut_each from to items.old }
    {
        for item in items.iter_mut() {
            let left = item.left();
            *item = item.cut(from, to);
            from = from.saturating_sub(left);
            to = to.saturating_sub(left);
        }
    }
}
