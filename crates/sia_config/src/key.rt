//! The keys of the configuration.
ghost use Rattle.std.specs.Prelude.{◌≡◌};

use std::fmt;

/// A key of the configuration. The variants stand in the order in which the keys are tried.
#[derive(Clone, Copy, Debug, PartialEq, Eq)]
pub enum ConfigKey {
    /// `chain.maturity`: after how many blocks a miner payout can be spent. An integer from 1 to 10,000; 144 where absent.
    Maturity,
    /// `chain.sector_exp`: how many times 64 bytes are doubled to make a sector. An integer from 0 to 16; 16 where absent.
    SectorExponent,
    /// `chain.siafund`: the siafund outputs of the genesis. 1 to 100 tables with `to`, an address in 64 hexadecimal digits of
    /// either case, and `value`, an integer from 1 to 10,000, whose values sum to 10,000. It must be there.
    Siafund,
    /// `host.window`: how many blocks a contract's proof window has at least. An integer from 1 to 1,000,000; 144 where
    /// absent.
    Window,
    /// `host.max_duration`: how many blocks from now a contract ends at most. An integer from 1 to 2,000,000; 25,920 where
    /// absent.
    MaxDuration,
    /// `host.margin`: how many blocks before a contract's proof window a newer revision is due to be mined. An integer from 1
    /// to 1,000; 12 where absent.
    Margin,
    /// `host.max_collateral`: what the host risks in one contract at most. An amount; 10^27 hastings where absent.
    MaxCollateral,
    /// `host.contract_price`: what a contract costs that is formed or renewed. An amount; 150 · 10^21 hastings where absent.
    ContractPrice,
    /// `host.base`: what each request costs. An amount; 10^17 hastings where absent.
    BasePrice,
    /// `host.access`: what each sector costs that is read from or swapped. An amount; 10^17 hastings where absent.
    AccessPrice,
    /// `host.storage`: what each byte costs that is kept, for each block. An amount; 25 · 10^9 hastings where absent.
    StoragePrice,
    /// `host.collateral`: what the host risks for each byte that it keeps, for each block. An amount; 50 · 10^9 hastings
    /// where absent.
    HostCollateral,
    /// `host.upload`: what each byte costs that the renter sends. An amount; 10^12 hastings where absent.
    UploadPrice,
    /// `host.download`: what each byte costs that the host sends. An amount; 25 · 10^12 hastings where absent.
    DownloadPrice,
    /// `host.journal_limit`: how many bytes the host's journal has at most. An integer from 1,024 to 2^36; 2^30 where
    /// absent.
    JournalLimit,
    /// `host.slots`: how many sectors the host's shelf has at most. An integer from 1 to 2^20; 4,096 where absent.
    Slots,
    /// `host.events`: how many events a run has at most. An integer from 16 to 2^24; 2^24 where absent.
    Events,
    /// `renter.fee`: the miner fee of a renter's transaction, which has none where this is 0. An amount; 10^22 hastings
    /// where absent.
    Fee,
    /// `renter.collateral`: what a renter asks the host to risk in a contract. An amount; 0 where absent.
    RenterCollateral,
    /// `renter.file_limit`: how many bytes a renter's file has at most. An integer from 1,024 to 2^32; 2^26 where absent.
    FileLimit,
}

impl ConfigKey {
    ghost use Rattle.sia_config.specs.Key.{name_of, row_of, table_of};

    /// The table that the key stands in: `chain`, `host` or `renter`.
    pub fn table(self) -> &'static str
        ensures { result.now ≡ table_of self }
    {
        match self {
            ConfigKey::Maturity | ConfigKey::SectorExponent | ConfigKey::Siafund => "chain",
            ConfigKey::Fee | ConfigKey::RenterCollateral | ConfigKey::FileLimit => "renter",
            _ => "host",
        }
    }

    /// Its name in that table.
    pub fn name(self) -> &'static str
        ensures { result.now ≡ name_of self }
    {
        match self {
            ConfigKey::Maturity => "maturity",
            ConfigKey::SectorExponent => "sector_exp",
            ConfigKey::Siafund => "siafund",
            ConfigKey::Window => "window",
            ConfigKey::MaxDuration => "max_duration",
            ConfigKey::Margin => "margin",
            ConfigKey::MaxCollateral => "max_collateral",
            ConfigKey::ContractPrice => "contract_price",
            ConfigKey::BasePrice => "base",
            ConfigKey::AccessPrice => "access",
            ConfigKey::StoragePrice => "storage",
            ConfigKey::HostCollateral => "collateral",
            ConfigKey::UploadPrice => "upload",
            ConfigKey::DownloadPrice => "download",
            ConfigKey::JournalLimit => "journal_limit",
            ConfigKey::Slots => "slots",
            ConfigKey::Events => "events",
            ConfigKey::Fee => "fee",
            ConfigKey::RenterCollateral => "collateral",
            ConfigKey::FileLimit => "file_limit",
        }
    }

    /// Its place among the keys, in the order in which they are tried, from 0.
    pub fn row(self) -> u8
        ensures { result ≡ row_of self }
    {
        self as u8
    }
}

impl fmt::Display for ConfigKey {
    ghost use Rattle.std.specs.Prelude.{Some};
    ghost use Rattle.sia_config.specs.Key.{key_text};

    ghost output = { λ key. Some (key_text key) };

    /// Writes the key as it is printed: its table, a dot and its name, as `chain.maturity`.
    #[tactic(auto, unfolding(crate::specs::Key::key_text))]
    fn fmt<W: fmt::Write>(&self, f: &mut fmt::Formatter<W>) -> fmt::Result {
        let table = self.table();
        let name = self.name();
        write!(f, "{table}.{name}")
    }
}
