//! The options of the command line.
use anyhow::{bail, ensure};
use replace::datanode::ReplaceDatanodeOnFailure;
use replace::settings::Settings;
use std::env;

const POLICY: &str = "dfs.client.block.write.replace-datanode-on-failure.policy";

const BEST_EFFORT: &str = "dfs.client.block.write.replace-datanode-on-failure.best-effort";

/// The sizes that a block is written with, and the file for the bytes that were kept.
#[derive(Drop)]
pub struct Options {
    /// How many bytes have one sum.
    pub chunk: u32,
    /// How many octets a packet may have.
    pub packet: u32,
    /// How many bytes a block may have.
    pub block: u64,
    /// How many nodes the bench has, where one is asked for: `--nodes 0` asks for none.
    pub nodes: Option<usize>,
    /// The file's name, where one is asked for: an empty name asks for none.
    pub spool: Option<String>,
    /// The packet at which a datanode of the bench fails, where one is to fail.
    pub fail_packet: Option<u64>,
    /// The position of that datanode in the pipeline.
    pub fail_node: usize,
    /// How many datanodes the namenode has to spare.
    pub spares: usize,
    /// What is done about a datanode that failed.
    settings: Settings,
}

impl Options {
    fn new() -> Self {
        Options {
            chunk: 512,
            packet: 65_536,
            block: 134_217_728,
            nodes: Some(3),
            spool: None,
            fail_packet: None,
            fail_node: 0,
            spares: 0,
            settings: Settings::default(),
        }
    }

    fn set(&mut self, name: &str, value: String) -> anyhow::Result<()> {
        match name {
            "--chunk" => self.chunk = value.as_str().parse::<u32>()?,
            "--packet" => self.packet = value.as_str().parse::<u32>()?,
            "--block" => self.block = value.as_str().parse::<u64>()?,
            "--nodes" => {
                self.nodes = Some(value.as_str().parse::<usize>()?).filter(|nodes| *nodes > 0)
            }
            "--spool" => self.spool = Some(value).filter(|name| !name.is_empty()),
            "--fail-packet" => self.fail_packet = Some(value.as_str().parse::<u64>()?),
            "--fail-node" => self.fail_node = value.as_str().parse::<usize>()?,
            "--spares" => self.spares = value.as_str().parse::<usize>()?,
            "--policy" => self.settings.set(POLICY, value.as_str()),
            "--best-effort" => self.settings.set(BEST_EFFORT, value.as_str()),
            _ => bail!(
                "the options are --chunk N, --packet N, --block N, --nodes N, --spool FILE, --fail-packet N, --fail-node N, --spares N, --policy WORD and --best-effort WORD"
            ),
        }
        Ok(())
    }

    /// What a writer does about a datanode that failed.
    pub fn replacement(&self) -> ReplaceDatanodeOnFailure {
        self.settings.replace_datanode()
    }

    /// The options as the command line has them, each a name with a value behind it.
    pub fn from_args(rt: &HostRuntime) -> anyhow::Result<Options> {
        let mut options = Options::new();
        let mut name: Option<String> = None;
        for word in env::args(rt)?.skip(1) {
            match name.take() {
                None => name = Some(word),
                Some(name) => options.set(name.as_str(), word)?,
            }
        }
        ensure!(
            name.is_none_or(|name| name.is_empty()),
            "an option has no value behind it"
        );
        Ok(options)
    }
}
