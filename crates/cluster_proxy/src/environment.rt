//! What the environment says: the passwords at the nodes and at the proxy.

ghost use Rattle.std.specs.Prelude.{◌≡◌, Err, MatchOption, None, Ok};

use client_door::ClientPassword;
use node_dial::Credentials;
use resp_wire::NoMemory;
use std::alloc::{AllocGlobal, Global};
use std::env;
use std::env::{Env, VarError};
use thiserror::Error;

const PASSWORD: &str = "CLUSTER_PROXY_PASSWORD";

const USER: &str = "CLUSTER_PROXY_USER";

const CLIENT_PASSWORD: &str = "CLUSTER_PROXY_CLIENT_PASSWORD";

/// The passwords of the environment.
#[derive(Drop)]
pub struct Passwords {
    /// What the nodes are told; `None` for nothing.
    pub nodes: Option<Credentials>,
    /// What clients have to say; `None` for nothing.
    pub clients: Option<ClientPassword>,
}

/// Why the environment is refused.
#[derive(Debug, Drop, Error)]
pub enum EnvironmentFault {
    #[error("out of memory")]
    NoMemory,
    #[error("CLUSTER_PROXY_USER is set, but CLUSTER_PROXY_PASSWORD is not")]
    UserAlone,
    #[error("{0} is not UTF-8")]
    NotText(&'static str),
    #[error("CLUSTER_PROXY_CLIENT_PASSWORD has fewer than 8 bytes")]
    TooShort,
}

impl From<NoMemory> for EnvironmentFault {
    fn from(_: NoMemory) -> EnvironmentFault {
        EnvironmentFault::NoMemory
    }
}

/// The passwords that are there.
pub fn passwords_of<R: Env + AllocGlobal>(rt: &R) -> Result<Passwords, EnvironmentFault> {
    Ok(Passwords {
        nodes: credentials_of(rt)?,
        clients: client_password_of(rt)?,
    })
}

/// The clients' password, where it is there.
fn client_password_of<R: Env + AllocGlobal>(
    rt: &R,
) -> Result<Option<ClientPassword>, EnvironmentFault> {
    let Some(text) = variable(rt, CLIENT_PASSWORD)? else {
        return Ok(None);
    };
    match ClientPassword::new(text.into_bytes()) {
        Some(password) => Ok(Some(password)),
        None => Err(EnvironmentFault::TooShort),
    }
}

/// The nodes' password, and the user, where they are there.
fn credentials_of<R: Env + AllocGlobal>(rt: &R) -> Result<Option<Credentials>, EnvironmentFault> {
    let password = variable(rt, PASSWORD)?;
    let user = variable(rt, USER)?;
    match password {
        Some(password) => Ok(Some(named(rt.alloc(), user, password.as_bytes())?)),
        None => without_password(user),
    }
}

/// What a user without a password means: a fault; none means no credentials.
fn without_password(user: Option<String<Global>>) -> Result<Option<Credentials>, EnvironmentFault>
    ensures { MatchOption user (result ≡ Ok None) (λ _. result ≡ Err EnvironmentFault.UserAlone) }
{
    match user {
        Some(user) => {
            drop(user);
            Err(EnvironmentFault::UserAlone)
        }
        None => Ok(None),
    }
}

/// The credentials of this user, or of none, with the password.
fn named(
    alloc: Global,
    user: Option<String<Global>>,
    password: &[u8],
) -> Result<Credentials, NoMemory> {
    match user {
        Some(user) => Credentials::of_user(alloc, user.as_bytes(), password),
        None => Credentials::of_password(alloc, password),
    }
}

/// A variable of the environment. An empty one counts as one that is not there.
fn variable<R: Env + AllocGlobal>(
    rt: &R,
    name: &'static str,
) -> Result<Option<String<Global>>, EnvironmentFault> {
    match env::var(rt, name) {
        Ok(text) if text.as_str().is_empty() => Ok(None),
        Ok(text) => Ok(Some(text)),
        Err(VarError::NotPresent) => Ok(None),
        Err(VarError::NotUnicode) => Err(EnvironmentFault::NotText(name)),
        Err(VarError::OutOfMemory) => Err(EnvironmentFault::NoMemory),
    }
}
