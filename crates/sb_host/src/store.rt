//! The store of a plan.

ghost use Rattle.std.specs.Prelude.{◌≡◌, ◌≢◌, ◌⊎◌, IfOk, Some, []};
ghost use Rattle.sb_world.specs.Benches.{HasPauses};
ghost use Rattle.sb_host.specs.Stores.{IsStoreOf, faults_of, log_of};

use sb_base::{Digest, StorePlan};
use sb_dirstore::DirLink;
use sb_retry::Retry;
use sb_s3link::S3Link;
use sb_sign::Signer;
use sb_world::{Clock, Folder, Got, HeadText, Link, LinkFault, Meta, Page, Wire};
use std::alloc::{AllocError, Global};

/// The objects of a plan's store: a bucket over a wire, whose requests are tried again, or the files of a folder.
#[derive(Drop)]
pub enum Store<W, F, C> {
    Bucket(Retry<S3Link<W, C>, C>),
    Directory(DirLink<F>),
}

impl<W: Drop, F: Drop, C: Drop> Store<W, F, C> {
    /// The store that a plan asks for: a bucket over the wire and both clocks, with an access id and its secret key, or
    /// a directory over the folder. What a store has no use for is dropped. Requests are signed at the moments of the first
    /// clock, and the second one pauses before they are tried again.
    pub fn of(
        alloc: Global,
        plan: &StorePlan,
        id: &[u8],
        key: &[u8],
        wire: W,
        folder: F,
        clock: C,
        second: C,
    ) -> Result<Store<W, F, C>, AllocError>
        requires { HasPauses (Some plan.now) }
        ensures store { IfOk result (IsStoreOf plan.now id.now key.now wire folder clock second) }
        ensures unused { IfOk result (λ store. (log_of store ≡ []) × (faults_of store ≡ 0)) }
    {
        match plan {
            StorePlan::Dir { path: _ } => Ok(Store::Directory(DirLink::new(alloc, folder))),
            StorePlan::S3 {
                host,
                port,
                bucket,
                vhost,
                region,
                access: _,
                first_pause,
                total_pause,
            } => {
                let signer = Signer::new(alloc, id, key, region.bytes())?;
                let link = S3Link::new(
                    alloc,
                    signer,
                    host.copy(alloc)?,
                    *port,
                    bucket.copy(alloc)?,
                    *vhost,
                    wire,
                    clock,
                );
                Ok(Store::Bucket(Retry::new(link, second, *first_pause, *total_pause)))
            }
        }
    }
}

impl<W: Wire, F: Folder, C: Clock> Link for Store<W, F, C> {
    ghost log = { λ store. Some (log_of store) };

    ghost faults = { faults_of };

    fn get(
        &mut self,
        name: &[u8],
        verify: Option<Digest>,
        out: &mut [u8],
    ) -> Result<Got, LinkFault> {
        match self {
            Store::Bucket(link) => link.get(name, verify, out),
            Store::Directory(link) => link.get(name, verify, out),
        }
    }

    fn put(&mut self, name: &[u8], body: &[u8], meta: Option<Meta>) -> Result<(), LinkFault> {
        match self {
            Store::Bucket(link) => link.put(name, body, meta),
            Store::Directory(link) => link.put(name, body, meta),
        }
    }

    fn delete(&mut self, name: &[u8]) -> Result<(), LinkFault> {
        match self {
            Store::Bucket(link) => link.delete(name),
            Store::Directory(link) => link.delete(name),
        }
    }

    fn head(&mut self, name: &[u8]) -> Result<Option<HeadText>, LinkFault> {
        match self {
            Store::Bucket(link) => link.head(name),
            Store::Directory(link) => link.head(name),
        }
    }

    fn list(&mut self, prefix: &[u8], marker: &[u8], page: &mut Page) -> Result<bool, LinkFault> {
        match self {
            Store::Bucket(link) => link.list(prefix, marker, page),
            Store::Directory(link) => link.list(prefix, marker, page),
        }
    }
}
