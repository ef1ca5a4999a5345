//! The layers, and what rows ask of them.

const TOKENS: &str = "tokens";

const GRAMMAR: &str = "grammar";

const CONDITIONS: &str = "conditions";

const NAMES: &str = "names";

const GRAPHS: &str = "graphs";

const VALUES: &str = "values";

const VALUE_LINES: &str = "value lines";

const COMMAND_LINES: &str = "command lines";

/// The layers.
pub static LAYERS: [&str; 8] = [
    TOKENS,
    GRAMMAR,
    CONDITIONS,
    NAMES,
    GRAPHS,
    VALUES,
    VALUE_LINES,
    COMMAND_LINES,
];

/// What is asked of a text.
#[derive(Clone, Copy)]
pub enum LayerView {
    /// Its tokens.
    Tokens,
    /// How many tokens it has.
    Count,
    /// Whether its tokens have a tree before inlines are replaced in them.
    BareTree,
    /// Whether it has a tree.
    Tree,
    /// Something of the checked model that it is.
    Model(ModelView),
    /// What is read of it as a command line.
    Words,
}

/// What is asked of a checked model.
#[derive(Clone, Copy)]
pub enum ModelView {
    /// The least condition that refuses it, if one does.
    Condition,
    /// All of it: declarations and statements with the names replaced.
    Whole,
    /// The texts of its statements.
    Statements,
    /// The expressions that are statements.
    Expressions,
    /// Something of the control graph of its first proctype.
    Graph(GraphView),
    /// What it begins with.
    FirstState,
    /// What there is once a process is created beside a global.
    Created,
    /// What the statements of its first proctype come to.
    Results,
    /// What they print.
    Printed,
    /// What variables and channels hold behind them.
    StateBehind,
    /// The lines of the places that changed.
    Lines(LinesView),
}

/// What is asked of a control graph.
#[derive(Clone, Copy)]
pub enum GraphView {
    /// Its edges.
    Edges,
    /// How many offers each level of a node has.
    Levels,
    /// The texts of the offers of each node.
    Texts,
    /// The lines, ends and atomics of the nodes.
    Marks,
}

/// Of what the lines are asked.
#[derive(Clone, Copy)]
pub enum LinesView {
    /// From the cells before to those after.
    Cells,
    /// Of those the locals alone.
    Locals,
    /// Of what writes changed.
    Writes,
}

/// A word of a part that says what is wanted.
#[derive(Clone, Copy)]
pub struct LayerWord {
    pub word: &'static str,
    /// The layer that is asked.
    pub layer: &'static str,
    pub view: LayerView,
}

/// What signs and beginnings of texts want.
pub const TOKENS_WISH: LayerWord = LayerWord {
    word: "tokens",
    layer: TOKENS,
    view: LayerView::Tokens,
};

/// All words that say what is wanted.
pub static WISHES: [LayerWord; 21] = [
    TOKENS_WISH,
    LayerWord {
        word: "count",
        layer: TOKENS,
        view: LayerView::Count,
    },
    LayerWord {
        word: "parsed",
        layer: GRAMMAR,
        view: LayerView::Tree,
    },
    LayerWord {
        word: "parsed-as-cut",
        layer: GRAMMAR,
        view: LayerView::BareTree,
    },
    LayerWord {
        word: "expressions",
        layer: GRAMMAR,
        view: LayerView::Model(ModelView::Expressions),
    },
    LayerWord {
        word: "condition",
        layer: CONDITIONS,
        view: LayerView::Model(ModelView::Condition),
    },
    LayerWord {
        word: "model",
        layer: NAMES,
        view: LayerView::Model(ModelView::Whole),
    },
    LayerWord {
        word: "statements",
        layer: NAMES,
        view: LayerView::Model(ModelView::Statements),
    },
    LayerWord {
        word: "graph",
        layer: GRAPHS,
        view: LayerView::Model(ModelView::Graph(GraphView::Edges)),
    },
    LayerWord {
        word: "levels",
        layer: GRAPHS,
        view: LayerView::Model(ModelView::Graph(GraphView::Levels)),
    },
    LayerWord {
        word: "texts",
        layer: GRAPHS,
        view: LayerView::Model(ModelView::Graph(GraphView::Texts)),
    },
    LayerWord {
        word: "marks",
        layer: GRAPHS,
        view: LayerView::Model(ModelView::Graph(GraphView::Marks)),
    },
    LayerWord {
        word: "first-state",
        layer: VALUES,
        view: LayerView::Model(ModelView::FirstState),
    },
    LayerWord {
        word: "created",
        layer: VALUES,
        view: LayerView::Model(ModelView::Created),
    },
    LayerWord {
        word: "results",
        layer: VALUES,
        view: LayerView::Model(ModelView::Results),
    },
    LayerWord {
        word: "printed",
        layer: VALUES,
        view: LayerView::Model(ModelView::Printed),
    },
    LayerWord {
        word: "state-behind",
        layer: VALUES,
        view: LayerView::Model(ModelView::StateBehind),
    },
    LayerWord {
        word: "values",
        layer: VALUE_LINES,
        view: LayerView::Model(ModelView::Lines(LinesView::Cells)),
    },
    LayerWord {
        word: "local-values",
        layer: VALUE_LINES,
        view: LayerView::Model(ModelView::Lines(LinesView::Locals)),
    },
    LayerWord {
        word: "logged-values",
        layer: VALUE_LINES,
        view: LayerView::Model(ModelView::Lines(LinesView::Writes)),
    },
    LayerWord {
        word: "words",
        layer: COMMAND_LINES,
        view: LayerView::Words,
    },
];
