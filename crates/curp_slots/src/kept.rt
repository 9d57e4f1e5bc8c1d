ghost use Rattle.std.specs.Prelude.{◌≡◌, if◌then◌else◌, Some, None, option_copied, IfOk};
ghost use Rattle.curp_model.specs.Witness.{newly_held, survives};
ghost use Rattle.curp_slots.specs.Register.{marked};

use curp_base::{NoMemory, Shared};
use curp_cmd::Request;
use std::marker::Model;

/// A request that is held, how many collections it has survived, and whether it is suspected.
pub struct KeptRequest {
    request: Shared<Request>,
    survived: u64,
    suspected: bool,
}

impl Drop for KeptRequest {
    fn drop(self) {
        let KeptRequest {
            request: _,
            survived: _,
            suspected: _,
        } = self;
    }
}

impl Model for KeptRequest {
    ghost use Rattle.curp_model.specs.Witness.{HeldRequest};

    ghost Value = { HeldRequest };

    ghost view = { λ k. record { request = k.request; survived = k.survived; suspected = k.suspected } };
}

impl KeptRequest {
    pub fn new(request: Shared<Request>) -> KeptRequest
        ensures { result ≡ newly_held request }
    {
        KeptRequest {
            request,
            survived: 0,
            suspected: false,
        }
    }

    pub fn request(&self) -> &Request
        ensures { result.now ≡ self.now.request }
    {
        &self.request
    }

    /// The request for one more to hold.
    pub fn share(&self) -> Result<Shared<Request>, NoMemory>
        ensures { IfOk result (λ request. request ≡ self.now.request) }
    {
        self.request.share()
    }

    /// Suspects it, if it has survived at least three collections.
    pub fn mark(&mut self)
        ensures { self.new ≡ marked self.old }
    {
        if self.survived >= 3 {
            self.suspected = true;
        }
    }

    /// The request, if it is suspected.
    pub fn suspect(&self) -> Option<&Shared<Request>>
        ensures { option_copied result ≡ (if self.now.suspected then Some self.now.request else None) }
    {
        if self.suspected {
            Some(&self.request)
        } else {
            None
        }
    }

    /// It has survived one more collection. The count stands still at 2^64 - 1.
    pub fn survive(&mut self)
        ensures { self.new ≡ survives self.old }
    {
        self.survived = self.survived.saturating_add(1);
    }
}
