//! The parts of a line that is printed.

use cli_needs::Access;
use cli_profiles::PasswordProfile;
use outside_core::{List, Text};
use std::alloc::{AllocError, Global};
use tree_core::Expiry;

/// A line's parts, with a tab after each.
#[derive(Drop)]
pub(crate) struct Parts {
    text: String,
}

impl Parts {
    /// The line of a command, which has its name so far.
    pub fn new(alloc: Global, name: &str) -> Result<Parts, AllocError> {
        let mut parts = Parts {
            text: String::new(alloc),
        };
        parts.flag(name, true)?;
        Ok(parts)
    }

    /// The whole line.
    pub fn as_str(&self) -> &str {
        self.text.as_str()
    }

    /// A name, where what it means holds.
    pub fn flag(&mut self, name: &str, holds: bool) -> Result<(), AllocError> {
        if holds {
            self.text.push_str(name)?;
            self.text.push('\t')?;
        }
        Ok(())
    }

    /// A name with its text.
    pub fn text(&mut self, name: &str, text: &str) -> Result<(), AllocError> {
        self.text.push_str(name)?;
        self.text.push('=')?;
        self.flag(text, true)
    }

    /// A name with its text, where there is one.
    pub fn option(&mut self, name: &str, text: &Option<Text>) -> Result<(), AllocError> {
        match text {
            Some(text) => self.text(name, text.as_str()),
            None => Ok(()),
        }
    }

    /// A name with each of its texts.
    pub fn texts(&mut self, name: &str, texts: &List<Text>) -> Result<(), AllocError> {
        for text in texts.as_slice() {
            self.text(name, text.as_str())?;
        }
        Ok(())
    }

    /// A name with its number, in decimal.
    pub fn number(&mut self, alloc: Global, name: &str, number: u64) -> Result<(), AllocError> {
        self.text(name, format!(in alloc; "{number}")?.as_str())
    }

    /// How a password is generated.
    pub fn profile(&mut self, alloc: Global, profile: &PasswordProfile) -> Result<(), AllocError> {
        self.number(alloc, "length", u64::from(profile.length))?;
        self.text("alphabet", profile.alphabet.as_str())
    }

    /// When an entry expires, in seconds since the year 1.
    pub fn expiry(&mut self, alloc: Global, expiry: Expiry) -> Result<(), AllocError> {
        match expiry {
            Expiry::Never => self.text("expires", "never"),
            Expiry::At(time) => self.number(alloc, "expires", time.seconds()),
        }
    }

    /// How a database is opened that has this name.
    pub fn access(&mut self, name: &str, access: &Access) -> Result<(), AllocError> {
        self.text("database", name)?;
        self.flag("plain", access.plain)?;
        self.flag("quiet", access.quiet)?;
        self.option("key-file", &access.key_file)?;
        self.flag("no-password", access.no_password)
    }
}
