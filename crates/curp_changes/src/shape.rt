ghost use Rattle.std.specs.Prelude.{◌≡◌};

use std::marker::Model;

/// How many partitions and clients there are, and how many backups and witnesses each partition has.
pub struct Shape {
    /// How many backups a partition has, and how many witnesses: the failures that it survives.
    pub f: u32,
    pub parts: u32,
    pub clients: u32,
}

impl Drop for Shape {
    fn drop(self) {
        let Shape {
            f: _,
            parts: _,
            clients: _,
        } = self;
    }
}

impl Model for Shape {
    ghost use Rattle.curp_model.specs.Manager as model;

    ghost Value = { model.Shape };

    ghost view = { λ s. record { f = s.f; parts = s.parts; clients = s.clients } };
}

impl Shape {
    /// The same shape.
    pub fn copy(&self) -> Shape
        ensures { result ≡ self.now }
    {
        Shape {
            f: self.f,
            parts: self.parts,
            clients: self.clients,
        }
    }
}
