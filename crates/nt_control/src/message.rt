//! Control messages.

ghost use Rattle.std.specs.Prelude.{◌≡◌, IfOk};

use nt_subs::Sub;
use nt_topics::{Name, Props, TopicName, TypeName, Update};
use std::alloc::{AllocError, Global};

/// What a client says ("Client to Server Messages"). Its uids are of its own choice.
#[derive(Drop)]
pub enum ClientMsg {
    /// The client publishes a topic, under this uid.
    Publish {
        name: TopicName,
        uid: i64,
        typ: TypeName,
        props: Props,
    },
    /// It publishes no longer under this uid.
    Unpublish {
        uid: i64,
    },
    /// The properties of a topic change.
    SetProps {
        name: TopicName,
        update: Update,
    },
    /// The client subscribes, under this uid.
    Subscribe {
        uid: i64,
        sub: Sub,
    },
    /// It is subscribed no longer under this uid.
    Unsubscribe {
        uid: i64,
    },
}

impl ClientMsg {
    /// An equal message.
    pub fn copy(&self, alloc: Global) -> Result<ClientMsg, AllocError>
        ensures { IfOk result (λ m. m ≡ self.now) }
    {
        match self {
            ClientMsg::Publish {
                name,
                uid,
                typ,
                props,
            } => Ok(ClientMsg::Publish {
                name: name.copy(alloc)?,
                uid: *uid,
                typ: typ.copy(alloc)?,
                props: props.copy()?,
            }),
            ClientMsg::Unpublish { uid } => Ok(ClientMsg::Unpublish { uid: *uid }),
            ClientMsg::SetProps { name, update } => Ok(ClientMsg::SetProps {
                name: name.copy(alloc)?,
                update: update.copy()?,
            }),
            ClientMsg::Subscribe { uid, sub } => Ok(ClientMsg::Subscribe {
                uid: *uid,
                sub: sub.copy(alloc)?,
            }),
            ClientMsg::Unsubscribe { uid } => Ok(ClientMsg::Unsubscribe { uid: *uid }),
        }
    }
}

/// What a server says ("Server to Client Messages").
#[derive(Drop)]
pub enum ServerMsg {
    /// There is a topic of this name, known by this id. Where the client published it, its uid
    /// stands there too.
    Announce {
        name: Name,
        id: i64,
        typ: TypeName,
        pubuid: Option<i64>,
        props: Props,
    },
    /// The topic of this name and id is gone.
    Unannounce {
        name: Name,
        id: i64,
    },
    /// The properties of a topic changed. The client that asked for it hears so by `ack`.
    Properties {
        name: Name,
        ack: bool,
        update: Update,
    },
}

impl ServerMsg {
    /// An equal message.
    pub fn copy(&self, alloc: Global) -> Result<ServerMsg, AllocError>
        ensures { IfOk result (λ m. m ≡ self.now) }
    {
        match self {
            ServerMsg::Announce {
                name,
                id,
                typ,
                pubuid,
                props,
            } => Ok(ServerMsg::Announce {
                name: name.copy(alloc)?,
                id: *id,
                typ: typ.copy(alloc)?,
                pubuid: *pubuid,
                props: props.copy()?,
            }),
            ServerMsg::Unannounce { name, id } => Ok(ServerMsg::Unannounce {
                name: name.copy(alloc)?,
                id: *id,
            }),
            ServerMsg::Properties { name, ack, update } => Ok(ServerMsg::Properties {
                name: name.copy(alloc)?,
                ack: *ack,
                update: update.copy()?,
            }),
        }
    }
}
