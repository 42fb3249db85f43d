//! What the words of a command line ask for.

ghost use Rattle.std.specs.Prelude.{◌≤◌, IfOk, Some, length};
ghost use Rattle.sb_base.specs.Shapes.{IsSound};
ghost use Rattle.sb_names.specs.declared.names.TheConstants.{MAX_PREFIX};
ghost use Rattle.sb_server.specs.Mounts.{CanBeServed};
ghost use Rattle.sb_world.specs.Benches.{HasPauses};
ghost use Rattle.s3backer.specs.Runs.{IsMountOr};

use crate::settings::SETTINGS;
use sb_base::{Geometry, StorePlan, Text};
use sb_server::Mount;
use std::marker::Model;

/// How a disk is served.
#[derive(Drop)]
pub enum Form {
    /// To the connections that come to an address, `HOST:PORT`.
    Server { address: Text },
    /// To one client, over standard input and output.
    Stdio,
}

/// A disk that is asked for: how it is served, the store of its blocks, the names of their objects, and its size. It is seen with its
/// prefix as bytes.
#[derive(Drop)]
pub struct Plan {
    pub form: Form,
    pub store: StorePlan,
    /// What the name of each object begins with.
    pub prefix: String,
    /// Whether a hash stands before a block's number.
    pub hashed: bool,
    pub geometry: Geometry,
    /// Whether each write is refused. No word asks for it yet.
    pub read_only: bool,
}

impl Model for Plan {
    ghost use Rattle.std.specs.Prelude.{string_bytes};
    ghost use Rattle.s3backer.specs.Plans.{PlanParts};

    ghost Value = { PlanParts };

    ghost view = { λ p. record {
      form = p.form;
      store = p.store;
      prefix = string_bytes p.prefix;
      hashed = p.hashed;
      geometry = p.geometry;
      read_only = p.read_only;
    } };
}

impl Plan {
    /// What is served at an address, or the plan of a disk that is served over standard input and output.
    pub fn into_mount(self) -> Result<Mount, Plan>
        requires sound { IsSound self.geometry }
        requires prefix { length self.prefix ≤ MAX_PREFIX }
        requires pauses { HasPauses (Some self.store) }
        ensures is { IsMountOr self result }
        ensures can { IfOk result CanBeServed }
    {
        let Plan {
            form,
            store,
            prefix,
            hashed,
            geometry,
            read_only,
        } = self;
        match form {
            Form::Server { address } => Ok(Mount {
                store,
                prefix,
                hashed,
                geometry,
                settings: SETTINGS,
                read_only,
                address,
                connections: 0,
            }),
            Form::Stdio => Err(Plan {
                form: Form::Stdio,
                store,
                prefix,
                hashed,
                geometry,
                read_only,
            }),
        }
    }
}
