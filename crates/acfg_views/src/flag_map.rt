//! `flag.map`: the flags of a container.

ghost use Rattle.std.specs.Prelude.{◌≡◌, ◌+◌, ◌<◌};
ghost use Rattle.acfg_views.specs.Layout.{flag_map_type};
ghost use Rattle.acfg_views.specs.Reading.{Answers, IsOpenMap, opened_map, bucket_count, bucket_in, node_at, flag_at};
ghost use Rattle.acfg_views.specs.Reading.{flag_of};

use crate::fault::ViewFault;
use crate::fields::flag_node_of;
use crate::map_file::{MapFile, node_place, open_map, u32_in_place};
use crate::nodes::FlagNode;
use crate::steps::Steps;
use std::marker::Model;
use std::sync::ledger::Ledger;

const FILE_TYPE: u8 = 1;

/// `flag.map`, opened: contracts see its bytes and what its header says.
#[derive(Debug, Drop)]
pub struct FlagMap<'a> {
    map: MapFile<'a>,
}

impl<'a> Model for FlagMap<'a> {
    ghost use Rattle.acfg_views.specs.Layout.{flag_map_type};
    ghost use Rattle.acfg_views.specs.Reading.{OpenMap, IsOpenMap};
    ghost use Rattle.acfg_views.specs.Views.{open_map_of};

    ghost Value = { OpenMap };

    ghost view = { λ it. open_map_of it.map };

    ghost invariant = { λ it. IsOpenMap flag_map_type (open_map_of it.map) };
}

impl<'a> FlagMap<'a> {
    /// Opens the file: its header is read in byte order.
    ///
    /// # Errors
    ///
    /// The first fault of the header: a field that isn't whole, or one that fails its test.
    pub fn open(bytes: &'a [u8]) -> Result<FlagMap<'a>, ViewFault>
        ensures { Answers (λ map. map) result (opened_map flag_map_type bytes.now) }
    {
        let map = open_map(FILE_TYPE, bytes)?;
        Ok(FlagMap { map })
    }

    /// The version of the file.
    pub fn version(&self) -> u32
        ensures { result ≡ self.now.version }
    {
        self.map.version
    }

    /// The name of the container, a slice of the file.
    pub fn container(&self) -> &'a str
        ensures { result.now ≡ self.now.container }
    {
        self.map.container
    }

    /// How many nodes the header promises.
    pub fn count(&self) -> u32
        ensures { result ≡ self.now.count }
    {
        self.map.count
    }

    /// How many buckets there are: at least one.
    pub fn buckets(&self) -> u32
        ensures count { result ≡ bucket_count self.now }
        ensures some { 0 < result }
        ensures open { IsOpenMap flag_map_type self.now }
    {
        (self.map.first_node - self.map.first_bucket) / 4
    }

    /// Where the nodes begin.
    pub fn first_node(&self) -> u32
        ensures place { result ≡ self.now.first_node }
        ensures open { IsOpenMap flag_map_type self.now }
    {
        self.map.first_node
    }

    /// What stands in a bucket: where its first node is, or 0.
    pub fn bucket_at(&self, i: u32) -> u32
        requires { i < bucket_count self.now }
        ensures { result ≡ bucket_in self.now i }
    {
        let place = self.map.first_bucket as usize + 4 * i as usize;
        u32_in_place(self.map.bytes, place)
    }

    /// The node at an offset. This is the one way to a node, and takes one step.
    ///
    /// # Errors
    ///
    /// `BadOffsets` before the first node, else the first fault of the node's fields in byte order.
    pub fn node_at<L: Ledger>(
        &self,
        off: u32,
        steps: &mut Steps<L>,
    ) -> Result<FlagNode<'a>, ViewFault>
        ensures node { Answers (λ node. (flag_of node, node.end)) result (node_at flag_at self.now off) }
        ensures step { steps.new ≡ steps.old + 1 }
    {
        steps.tick();
        self.node(off)
    }

    #[tactic(auto, unfolding(crate::specs::Reading::node_at))]
    fn node(&self, off: u32) -> Result<FlagNode<'a>, ViewFault>
        ensures { Answers (λ node. (flag_of node, node.end)) result (node_at flag_at self.now off) }
    {
        let bytes = self.map.bytes;
        let place = node_place(bytes, self.map.first_node, off)?;
        flag_node_of(bytes.len(), place)
    }
}
