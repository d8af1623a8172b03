// The names in force.
ghost use Rattle.std.specs.Prelude.{◌≡◌, ◌<◌};
ghost use Rattle.binders.specs.Scopes.{Linked, push};

// A name of the stack: its row, and the scope that was in force before it. A scope is 0, or one more than the place of its last name.
#[derive(Clone, Copy)]
pub struct Entry {
    pub name: u16,
    pub link: u16,
}

// The stack of names. Its room is fixed, as nothing here is allocated.
#[derive(Clone, Copy)]
pub struct Stack {
    pub entries: [Entry; 1024],
    pub count: usize,
}

impl Stack {
    pub fn empty() -> Stack
        ensures { (Linked result) × (result.count ≡ 0) }
    {
        let none = Entry { name: 0, link: 0 };
        Stack {
            entries: [none; 1024],
            count: 0,
        }
    }

    // One name more, in a scope.
    pub fn push(&mut self, name: usize, scope: usize)
        requires { (self.old.count < 1024) × (name < 65536) × (scope < 65536) }
        ensures { self.new ≡ push self.old name scope }
    {
        let n = self.count;
        self.entries[n] = Entry {
            name: name as u16,
            link: scope as u16,
        };
        self.count = n + 1;
    }
}
